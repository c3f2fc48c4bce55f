//! What pushes leave in a replay buffer, as laws.

ghost use Rattle.std.specs.Prelude.{◌≡◌, ◌-◌, ◌≤◌, ◌++◌, ◌∷◌, [], ℕ, List, length, drop};
ghost use Rattle.replay_ring.specs.Replay.{IsLongestSuffix, longest_suffix, fresh, pushed, pushed_all, replay_of, texts_after};

/// A law for proofs: what pushes leave depends on all the texts pushed alone. It is the longest
/// suffix of them within both limits, and the number of the last is how many they are.
pub fn pushes_keep_the_longest_suffix()
    ensures all { (items bytes : ℕ) (texts : List (List ℕ))
        → pushed_all (fresh items bytes) texts ≡ replay_of items bytes texts }
    ensures one_more { (items bytes : ℕ) (texts : List (List ℕ)) (text : List ℕ)
        → pushed (replay_of items bytes texts) text ≡ replay_of items bytes (texts ++ text ∷ []) }
    ensures longest { (items bytes : ℕ) (texts : List (List ℕ))
        → IsLongestSuffix items bytes texts (longest_suffix items bytes texts) }
{}

/// A law for proofs: where a number is covered, what comes after it are all the texts pushed but
/// the first so many.
pub fn after_gives_all_later_texts()
    ensures { (items bytes : ℕ) (texts : List (List ℕ)) (q : ℕ)
        → length texts - length (longest_suffix items bytes texts) ≤ q → q ≤ length texts
        → texts_after (replay_of items bytes texts) q ≡ drop q texts }
{}
