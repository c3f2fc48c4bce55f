//! A member and a role: what `member_role_add` and `member_role_remove` name.

use snowflake_id::Snowflake;

/// A role that a member is given or loses.
#[derive(Clone, Copy)]
pub struct HeldRole {
    pub user: Snowflake,
    pub role: Snowflake,
}
