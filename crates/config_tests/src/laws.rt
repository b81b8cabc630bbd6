//! What texts are, by the grammar and its laws: the contracts of functions that do nothing.

ghost use Rattle.std.specs.Prelude.{codes};
ghost use Rattle.config_parse.specs.Texts.{Reads};
ghost use Rattle.config_tests.specs.Examples.{input_text, input_config, values_text, values_config, branch_text, branch_config};
ghost use Rattle.config_tests.specs.Written.{settings_text, settings_config, joints_text, joints_config, arms_text, arms_config};
ghost use Rattle.config_tests.specs.OpenLevels.{Opens};

use config_parse::machine_is_right;

/// What three texts read as.
pub fn examples()
    ensures input { Reads 64 input_text input_config }
    ensures values { Reads 64 values_text values_config }
    ensures conditions { Reads 64 branch_text branch_config }
{
    machine_is_right();
}

/// What three other texts read as, by derivations that are written out. Between them they take each rule of the grammar.
pub fn derivations()
    ensures settings { Reads 64 settings_text settings_config }
    ensures joints { Reads 64 joints_text joints_config }
    ensures arms { Reads 64 arms_text arms_config }
{}

/// How many levels are open behind beginnings of texts.
pub fn open_levels()
    ensures nothing { Opens (codes "") 0 }
    ensures brace { Opens (codes "filter {") 1 }
    ensures brackets { Opens (codes "filter { x { a => [ {") 4 }
    ensures closed { Opens (codes "filter { x { a => [ { } ]") 2 }
    ensures denials { Opens (codes "filter { if ! ! ( ! [a]") 5 }
    ensures joint { Opens (codes "filter { if ! ! ( ! [a] and") 4 }
    ensures group { Opens (codes "filter { if ! ! ( ! [a] )") 3 }
    ensures block { Opens (codes "filter { if ! ! ( ! [a] ) {") 2 }
    ensures list { Opens (codes "filter { if ! [ 1") 3 }
{}
