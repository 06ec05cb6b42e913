// The first file that passes a test.
ghost use Rattle.std.specs.Prelude.{◌≡◌};
ghost use Rattle.std.specs.Fn.{FnReturnsAt};
ghost use Rattle.install_plan.specs.Passing.{IsFirstPassing};

use frs_base::Uid;

/// The first of the files that passes a test.
pub(crate) fn first_passing<F: Fn(&Uid) -> bool>(uids: &[Uid], test: F) -> Option<Uid>
    requires { F.IsAlwaysCallable test }
    ensures { IsFirstPassing (λ uid passes. FnReturnsAt F.Fn test uid passes) uids.now result }
{
    for uid in uids {
        if test(uid) {
            return Some(*uid);
        }
    }
    None
}
