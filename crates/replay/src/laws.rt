// Theorems of all runs that stand beside the law.
ghost use Rattle.std.specs.Prelude.{◌≡◌, true};
ghost use Rattle.replay.specs.Determined.{TheSymbolsDetermineTheMap};

// There is one object map of the symbols that are passed: two lists that are right hold the same
// records. The function is there for its contract, and answers nothing else.
pub fn the_symbols_determine_the_map() -> bool
    ensures answer { result ≡ true }
    ensures determined { TheSymbolsDetermineTheMap }
{
    true
}
