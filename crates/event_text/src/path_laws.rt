//! What `get` answers after a `put` or a `take`, as contracts of functions that do nothing: a caller
//! learns the law by the call.
ghost use Rattle.std.specs.Prelude.{◌≡◌, ◌≢◌, ℕ, ◌<◌, List, [], ◌∷◌, ◌++◌, length, remove, slice_set, Bool, true, false, if◌then◌else◌, Some, None, Ok, Err};
ghost use Rattle.std.specs.Option.{option_map};
ghost use Rattle.event_tree.specs.Values.{Members};
ghost use Rattle.event_tree.specs.Events.{Ev, Way, IsEvent, event_depth, to, event_at, event_put, event_take, limited};
ghost use Rattle.event_tree.specs.declared.fault.PutFault.TheVariants.{ThroughScalar, Deep, Large};
ghost use Rattle.event_tree.specs.declared.value.Value.{Value};
ghost use Rattle.event_tree.specs.declared.value.Value.TheVariants as v;
ghost use Rattle.event_text.specs.PathLaws.{Fork, PartsIn, one_end, other_end, key_of, Item, StandsIn, list_of, way_of, IsWithinLimits, IsTooLarge, event_passes_end};

/// After a `put` that succeeds, `get` of the same path gives the value. There is one exception: a put
/// behind the last item of a list by a part that counts from its end, as `-0`. The list is longer then,
/// and the part names the place behind the new item, where nothing stands.
pub fn what_is_put_is_got()
    ensures { (way : Way) (value : Value) (old new : Ev)
        → limited (event_put way value old) ≡ Ok new
        → event_at way new ≡ (if event_passes_end way old then None else Some value) }
{}

/// `take` gives what `get` would have given, and nothing where `get` gives nothing.
pub fn what_is_taken_was_got()
    ensures { (way : Way) (event : Ev) → (way.meta ≡ false → 0 < length way.parts)
        → option_map (λ taken. taken.0) (event_take way event) ≡ event_at way event }
{}

/// After a `take` at a key of an object, `get` of the same path gives nothing. After a `take` of the
/// whole `meta` it gives an empty object.
pub fn what_is_taken_is_gone()
    ensures gone { (meta : Bool) (front : List (List ℕ)) (key : List ℕ) (members : Members)
        → (value : Value) (old new : Ev) → IsEvent old
        → event_at (to meta front) old ≡ Some (v.Object members)
        → event_take (key_of meta front key) old ≡ Some (value, new)
        → event_at (key_of meta front key) new ≡ None }
    ensures empty { (way : Way) (value : Value) (old new : Ev)
        → way ≡ to true [] → event_take way old ≡ Some (value, new) → event_at way new ≡ Some (v.Object []) }
{}

/// A `put` changes nothing at another path, where the two first differ in a part at a place where no
/// list stands, or where one leads into `meta` and the other into `fields`.
pub fn other_paths_are_not_put()
    ensures parted { (fork : Fork) (value : Value) (old new : Ev) → PartsIn fork old
        → limited (event_put (one_end fork) value old) ≡ Ok new
        → event_at (other_end fork) new ≡ event_at (other_end fork) old }
    ensures apart { (way other : Way) (value : Value) (old new : Ev) → way.meta ≢ other.meta
        → limited (event_put way value old) ≡ Ok new → event_at other new ≡ event_at other old }
{}

/// The same of a `take`.
pub fn other_paths_are_not_taken()
    ensures parted { (fork : Fork) (value : Value) (old new : Ev) → PartsIn fork old
        → event_take (one_end fork) old ≡ Some (value, new)
        → event_at (other_end fork) new ≡ event_at (other_end fork) old }
    ensures apart { (way other : Way) (value : Value) (old new : Ev) → way.meta ≢ other.meta
        → event_take way old ≡ Some (value, new) → event_at other new ≡ event_at other old }
{}

/// A `take` of an item of a list leaves the others, closed up.
pub fn lists_close_up()
    ensures { (item : Item) (value : Value) (old new : Ev) → StandsIn item old
        → event_take (way_of item) old ≡ Some (value, new)
        → event_at (list_of item) new ≡ Some (v.List (remove item.items item.place)) }
{}

/// A `put` at an item of a list sets that item and keeps the others, and a `put` behind the last item
/// adds one and keeps them all.
pub fn items_are_set_and_added()
    ensures set { (item : Item) (value : Value) (old new : Ev) → StandsIn item old
        → item.place < length item.items → limited (event_put (way_of item) value old) ≡ Ok new
        → event_at (list_of item) new ≡ Some (v.List (slice_set item.items item.place value)) }
    ensures added { (item : Item) (value : Value) (old new : Ev) → StandsIn item old
        → item.place ≡ length item.items → limited (event_put (way_of item) value old) ≡ Ok new
        → event_at (list_of item) new ≡ Some (v.List (item.items ++ value ∷ [])) }
{}

/// The limits of events: 128 levels and 16,777,216 bytes. What would be past one of them is refused, the
/// levels first, and all else is put.
pub fn events_have_limits()
    ensures held { (event : Ev) → IsEvent event → IsWithinLimits event }
    ensures none { limited None ≡ Err ThroughScalar }
    ensures deep { (event : Ev) → 128 < event_depth event → limited (Some event) ≡ Err Deep }
    ensures large { (event : Ev) → IsTooLarge event → limited (Some event) ≡ Err Large }
    ensures put { (event : Ev) → IsWithinLimits event → limited (Some event) ≡ Ok event }
{}
