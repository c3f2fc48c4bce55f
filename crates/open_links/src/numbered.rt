//! Open links in order of their numbers.

ghost use Rattle.std.specs.Prelude.{◌≡◌, ◌<◌, ◌++◌, ◌∷◌, [], false, IfOk, OnOk, OnErr, MatchOption, All, true, length, map, slice_index_or};
ghost use Rattle.std.specs.List.{remove};
ghost use Rattle.std.specs.Vec.{vec_len, vec_capacity};
ghost use Rattle.collections.specs.ById.{IsById, count_below};
ghost use Rattle.gate_outside.specs.declared.sending.Sending.TheVariants as sending;
ghost use Rattle.open_links.specs.Courses.{Gives};
ghost use Rattle.open_links.specs.Links.{Held, held_conn, has_conn, as_returned, with_more};
ghost use Rattle.open_links.specs.Calls.{IsSameDoor, is_done};
ghost use Rattle.open_links.specs.Steps.{AllFollow, StandsAt, HearsAt};

use crate::heard::Heard;
use crate::open_link::OpenLink;
use gate_outside::doors::Door;
use gate_outside::links::Link;
use std::alloc::AllocError;

/// The place of a connection's link, if it is open, else where it would stand.
pub fn place_of<L: Link + Drop>(links: &[OpenLink<L>], conn: u32) -> usize
    requires { IsById held_conn links.now }
    ensures { result ≡ count_below held_conn conn links.now }
{
    links.partition_point(|link| link.conn < conn)
}

/// The place of a connection's link. `None` exactly if it is not open.
pub fn place_at<L: Link + Drop>(links: &[OpenLink<L>], conn: u32) -> Option<usize>
    requires { IsById held_conn links.now }
    ensures { MatchOption result (has_conn conn links.now ≡ false) (λ place. StandsAt place conn links.now) }
{
    let place = place_of(links, conn);
    if place >= links.len() {
        return None;
    }
    let link = &links[place];
    if link.conn == conn { Some(place) } else { None }
}

/// The connection of the first link that is done with. `None` exactly if there is no such link.
pub fn first_done_of<L: Link + Drop>(links: &[OpenLink<L>]) -> Option<u32>
    requires { IsById held_conn links.now }
    ensures { MatchOption result (All (λ (l : Held). l.done ≡ false) links.now) (λ conn. is_done conn links.now ≡ true) }
{
    for link in links {
        if link.done {
            return Some(link.conn);
        }
    }
    None
}

/// Adds a link, for which there is room.
pub fn add<L: Link + Drop>(links: &mut Vec<OpenLink<L>>, conn: u32, wire: L)
    requires { vec_len links.old < vec_capacity links.old }
    ensures { links.new.items ≡ links.old.items ++ record { conn = conn; tale = L.tale wire; faults = L.faults wire; done = false } ∷ [] }
{
    let _ = links.push(OpenLink {
        conn,
        wire,
        done: false,
    });
}

/// Asks the link at a place.
pub fn ask_at<L: Link + Drop>(
    links: &mut Vec<OpenLink<L>>,
    place: usize,
) -> Result<Heard, AllocError>
    requires ascend { IsById held_conn links.old.items }
    requires within { place < length links.old.items }
    ensures ok { IfOk result (λ heard. HearsAt place heard links.old.items links.new.items) }
    ensures err { OnErr result (AllFollow [] links.old.items links.new.items) }
{
    let link = &mut links[place];
    let conn = link.conn;
    let word = link.ask()?;
    Ok(Heard { conn, word })
}

/// Sends a text by the link at a place.
pub fn send_at<L: Link + Drop>(
    links: &mut Vec<OpenLink<L>>,
    place: usize,
    conn: u32,
    text: &str,
) -> Result<(), AllocError>
    requires ascend { IsById held_conn links.old.items }
    requires stands { StandsAt place conn links.old.items }
    ensures ok { OnOk result (AllFollow ((conn, Gives (sending.Text text.now)) ∷ []) links.old.items links.new.items) }
    ensures err { OnErr result (AllFollow [] links.old.items links.new.items) }
{
    links[place].send(text)
}

/// Closes the link at a place. Says whether it is closed.
pub fn close_at<L: Link + Drop>(
    links: &mut Vec<OpenLink<L>>,
    place: usize,
    conn: u32,
    code: u16,
) -> Result<bool, AllocError>
    requires ascend { IsById held_conn links.old.items }
    requires stands { StandsAt place conn links.old.items }
    ensures ok { OnOk result (AllFollow ((conn, Gives (sending.Close code)) ∷ []) links.old.items links.new.items) }
    ensures err { OnErr result (AllFollow [] links.old.items links.new.items) }
    ensures failed { IfOk result (λ closed. closed ≡ false → (d : Held) → (slice_index_or links.old.items place d).done ≡ false → 0 < (slice_index_or links.new.items place d).faults) }
{
    links[place].close(code)
}

/// The door takes the link at a place back.
pub fn give_at<L: Link + Drop, D: Door<Wire = L>>(
    links: &mut Vec<OpenLink<L>>,
    door: &mut D,
    place: usize,
)
    requires { place < length links.old.items }
    ensures items { links.new.items ≡ remove links.old.items place }
    ensures returned { (d : Held) → (D.tale door.new).returned ≡ with_more (D.tale door.old).returned (as_returned (slice_index_or links.old.items place d) ∷ []) }
    ensures door { IsSameDoor (D.tale door.old) (D.tale door.new) }
    ensures faults { D.faults door.new ≡ D.faults door.old }
{
    let OpenLink { wire, .. } = links.remove(place);
    door.back(wire);
}

/// The door takes each of these links back.
pub fn give_all<L: Link + Drop, D: Door<Wire = L>>(links: Vec<OpenLink<L>>, door: &mut D)
    ensures returned { (D.tale door.new).returned ≡ with_more (D.tale door.old).returned (map as_returned links.items) }
    ensures door { IsSameDoor (D.tale door.old) (D.tale door.new) }
    ensures faults { D.faults door.new ≡ D.faults door.old }
{
    for link in links {
        let OpenLink { wire, .. } = link;
        door.back(wire);
    }
}
