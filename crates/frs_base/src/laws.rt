// What follows for every machine from its rules.
ghost use Rattle.std.specs.Prelude.{◌≡◌};

use crate::Machine;

/// No two commands have the same bytes, so that what `decode` gives is the command that `encode`
/// was given.
pub fn codes_have_one_command<M: Machine>()
    ensures { (x y : M.Cmd) → M.law.is_cmd x → M.law.is_cmd y → M.law.code x ≡ M.law.code y → x ≡ y }
{}
