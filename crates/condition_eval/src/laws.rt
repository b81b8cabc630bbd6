//! Laws of the definitions, each the contract of a function that does nothing.

ghost use Rattle.std.specs.Prelude.{◌≡◌, ◌↔◌, IsTrue, ℕ, List};
ghost use Rattle.std.specs.Str.Iter.{HasSubslice};
ghost use Rattle.event_tree.specs.Number.{Num};
ghost use Rattle.event_tree.specs.declared.value.Value.{Value};
ghost use Rattle.event_tree.specs.declared.value.Value.TheVariants as v;
ghost use Rattle.config_tree.specs.Joints as row;
ghost use Rattle.config_tree.specs.declared.operators.Conjunction.{Conjunction};
ghost use Rattle.config_tree.specs.declared.operators.Disjunction.{Disjunction};
ghost use Rattle.config_tree.specs.declared.tree.Condition.{Condition};
ghost use Rattle.config_tree.specs.declared.tree.Condition.TheVariants as c;
ghost use Rattle.config_tree.specs.declared.tree.Operand.{Operand};
ghost use Rattle.config_tree.specs.declared.tree.MatchPattern.{MatchPattern};
ghost use Rattle.condition_eval.specs.Equality.{are_equal};
ghost use Rattle.condition_eval.specs.Laws.{Denies, DeniesEqual, DeniesMatch, DeniesAnd, SaysAs, Joins, MeetsWrong, IsRight, AreYesAndNo, IsDeMorgan, AgreesWithEquality, AreLeast};
ghost use Rattle.condition_eval.specs.Truths.{conjoined, disjoined, different, by_conjunction, by_disjunction};
ghost use Rattle.condition_eval.specs.Values.{holds};
ghost use Rattle.condition_eval.specs.declared.truth.Truth.{Truth};
ghost use Rattle.condition_eval.specs.declared.truth.Truth.TheVariants as t;
ghost use Rattle.condition_eval.specs.declared.truth.Reason.{Reason};

/// The tests of the operators are what they are called: `==` is true exactly of values that are
/// equal, and `in` of two texts exactly where the left one stands in the right one.
pub fn tests_are_exact()
    ensures equal { (x y : Value) → IsTrue (are_equal x y) ↔ (x ≡ y) }
    ensures holds { (part text : List ℕ) → IsTrue (holds part text) ↔ HasSubslice text part }
{}

/// An operator that denies says the negation of the one that affirms.
pub fn denials_are_negations()
    ensures unequal { (x y : Operand) → DeniesEqual x y }
    ensures not_in { (x y : Operand) → Denies (c.NotIn x y) (c.In x y) }
    ensures matches_not { (x : Operand) (p : MatchPattern) → DeniesMatch x p }
    ensures nand { (x y : Condition) → DeniesAnd x y }
    ensures not { (x : Condition) → Denies (c.Not x) x }
    ensures not_not { (x : Condition) → SaysAs (c.Not (c.Not x)) x }
{}

/// A condition that goes on with a joint and another says what the joint makes of the two.
pub fn rows_join_from_the_left()
    ensures conjoined { (j : Conjunction) → Joins (row.conjoined j) (by_conjunction j) }
    ensures disjoined { (j : Disjunction) → Joins (row.disjoined j) (by_disjunction j) }
{}

/// `and` says Yes exactly where both sides do, `or` says No exactly where both sides do, and `xor` says Yes
/// exactly where one side says Yes and the other No. De Morgan's law holds, also of what is wrong.
pub fn joints_are_those_of_logic()
    ensures and { (x y : Truth) → (conjoined x y ≡ t.Yes) ↔ ((x ≡ t.Yes) × (y ≡ t.Yes)) }
    ensures or { (x y : Truth) → (disjoined x y ≡ t.No) ↔ ((x ≡ t.No) × (y ≡ t.No)) }
    ensures xor { (x y : Truth) → (different x y ≡ t.Yes) ↔ AreYesAndNo x y }
    ensures de_morgan { (x y : Truth) → IsDeMorgan x y }
{}

/// `and` stops at No and `or` at Yes: what stands behind doesn't count, wrong or not. The first Wrong that is met is
/// the result, also on the right side of `xor`.
pub fn joints_stop()
    ensures and { (y : Truth) → conjoined t.No y ≡ t.No }
    ensures or { (y : Truth) → disjoined t.Yes y ≡ t.Yes }
    ensures conjunction { (j : Conjunction) → MeetsWrong (by_conjunction j) }
    ensures disjunction { (j : Disjunction) → MeetsWrong (by_disjunction j) }
    ensures xor { (x : Truth) (r : Reason) → IsRight x → different x (t.Wrong r) ≡ t.Wrong r }
{}

/// Two texts, and two numbers, are equal exactly where each is at most the other: `<=` and `>=` both say Yes exactly where
/// `==` does.
pub fn orders_agree_with_equality()
    ensures numbers { (m n : Num) → AreLeast m n → AgreesWithEquality (v.Num m) (v.Num n) }
    ensures texts { (s t : List ℕ) → AgreesWithEquality (v.Text s) (v.Text t) }
{}
