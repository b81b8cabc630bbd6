//! Laws of keys and members. Each is the contract of a function that does nothing: a caller learns
//! the law by the call.
#![tactic(auto, using(crate::proofs::ChangeLemmas::laws))]

ghost use Rattle.std.specs.Prelude.{◌≡◌, ◌≢◌, ℕ, List, [], ◌∷◌, ◌++◌, Some, None, IsTrue, ◌↔◌};
ghost use Rattle.std.specs.Option.{option_map};
ghost use Rattle.std.specs.declared.cmp.Ordering.TheVariants.{Equal};
ghost use Rattle.plain_data.specs.Keys.{text_cmp, same_key};
ghost use Rattle.plain_data.specs.Members.{Members, Rises, AllBelow, get_member, set_member, insert_member, remove_member};

/// Two keys compare as equal exactly where they are the same, and so the test of keys answers.
pub fn keys_compare()
    ensures order { (k l : List ℕ) → (text_cmp k l ≡ Equal) ↔ (k ≡ l) }
    ensures test { (k l : List ℕ) → IsTrue (same_key k l) ↔ (k ≡ l) }
{}

/// What `get` answers after `insert`: at the key the value, and at another key what it did before.
pub fn get_after_insert<V>()
    ensures same { (k : List ℕ) (v : V) (ms : Members V)
        → get_member k (insert_member k v ms) ≡ Some v }
    ensures other { (k l : List ℕ) (v : V) (ms : Members V) → k ≢ l
        → get_member l (insert_member k v ms) ≡ get_member l ms }
{}

/// What `get` answers after a write to the value at a key: there the value, if there was one, and
/// at another key what it did before.
pub fn get_after_set<V>()
    ensures same { (k : List ℕ) (v : V) (ms : Members V)
        → get_member k (set_member k v ms) ≡ option_map (λ _. v) (get_member k ms) }
    ensures other { (k l : List ℕ) (v : V) (ms : Members V) → k ≢ l
        → get_member l (set_member k v ms) ≡ get_member l ms }
{}

/// What `get` answers after `remove`: at the key nothing, and at another key what it did before.
pub fn get_after_remove<V>()
    ensures same { (k : List ℕ) (ms : Members V) → Rises ms
        → get_member k (remove_member k ms) ≡ None }
    ensures other { (k l : List ℕ) (ms : Members V) → k ≢ l
        → get_member l (remove_member k ms) ≡ get_member l ms }
{}

/// To insert at a key that stands is to write to its value, and at a key above all others to push.
pub fn insert_is_set_or_push<V>()
    ensures set { (k : List ℕ) (v x : V) (ms : Members V) → Rises ms → get_member k ms ≡ Some x
        → insert_member k v ms ≡ set_member k v ms }
    ensures push { (k : List ℕ) (v : V) (ms : Members V) → AllBelow ms k
        → insert_member k v ms ≡ ms ++ (k, v) ∷ [] }
{}

/// Members at keys that rise are the same where `get` answers the same at each key.
pub fn same_where_gets_same<V>()
    ensures { (ms ns : Members V) → Rises ms → Rises ns
        → ((k : List ℕ) → get_member k ms ≡ get_member k ns) → ms ≡ ns }
{}

/// The keys still rise after each change.
pub fn keys_rise<V>()
    ensures insert { (k : List ℕ) (v : V) (ms : Members V)
        → Rises ms → Rises (insert_member k v ms) }
    ensures set { (k : List ℕ) (v : V) (ms : Members V) → Rises ms → Rises (set_member k v ms) }
    ensures remove { (k : List ℕ) (ms : Members V) → Rises ms → Rises (remove_member k ms) }
    ensures push { (k : List ℕ) (v : V) (ms : Members V) → Rises ms → AllBelow ms k
        → Rises (ms ++ (k, v) ∷ []) }
{}
