// Disks that a script stops.
ghost use Rattle.std.specs.Prelude.{◌≡◌, ◌<◌, ◌∷◌, [], List, ℕ, Some, None, IsTrue, true, false};
ghost use Rattle.frs_disk.specs.Alarms.{armed_if, disarmed};
ghost use Rattle.frs_disk.specs.Crashes.{still};
ghost use Rattle.frs_disk.specs.Moments.{MayLeave, Tells, reread};

use crate::disk::FrsDisk;
use crate::image::Image;

/// A disk on which a script arms the call that is to fail, and which it crashes.
///
/// Calls are those of `write_at`, `cut` and `sync`, counted from 1 from the arming on. A disk that
/// can't crash, as one that is a file, answers false and changes nothing.
pub trait ScriptDisk: FrsDisk {
    /// Arms a call that is to stop the disk, in place of what was armed. The call answers `Failed`
    /// and leaves this image.
    fn arm(&mut self, call: u32, image: Image) -> bool
        requires { 0 < call }
        ensures can { result ≡ (Self.FrsDisk.alarm self.old).can_crash }
        ensures tells { IsTrue result → Tells (Self.FrsDisk.states self.old) }
        ensures alarm { Self.FrsDisk.alarm self.new
            ≡ armed_if result call (Some image) (Self.FrsDisk.alarm self.old) }
        ensures states { Self.FrsDisk.states self.new ≡ Self.FrsDisk.states self.old }
        ensures start { Self.FrsDisk.start self.new ≡ Self.FrsDisk.start self.old }
        ensures calls { Self.FrsDisk.spare_calls self.new ≡ Self.FrsDisk.spare_calls self.old }
        ensures bytes { Self.FrsDisk.spare_bytes self.new ≡ Self.FrsDisk.spare_bytes self.old };

    /// Arms a call that is to fail alone, in place of what was armed.
    fn fail(&mut self, call: u32) -> bool
        requires { 0 < call }
        ensures can { result ≡ (Self.FrsDisk.alarm self.old).can_crash }
        ensures tells { IsTrue result → Tells (Self.FrsDisk.states self.old) }
        ensures alarm { Self.FrsDisk.alarm self.new
            ≡ armed_if result call None (Self.FrsDisk.alarm self.old) }
        ensures states { Self.FrsDisk.states self.new ≡ Self.FrsDisk.states self.old }
        ensures start { Self.FrsDisk.start self.new ≡ Self.FrsDisk.start self.old }
        ensures calls { Self.FrsDisk.spare_calls self.new ≡ Self.FrsDisk.spare_calls self.old }
        ensures bytes { Self.FrsDisk.spare_bytes self.new ≡ Self.FrsDisk.spare_bytes self.old };

    /// Takes back what was armed.
    fn disarm(&mut self)
        ensures alarm { Self.FrsDisk.alarm self.new ≡ disarmed (Self.FrsDisk.alarm self.old) }
        ensures states { Self.FrsDisk.states self.new ≡ Self.FrsDisk.states self.old }
        ensures start { Self.FrsDisk.start self.new ≡ Self.FrsDisk.start self.old }
        ensures calls { Self.FrsDisk.spare_calls self.new ≡ Self.FrsDisk.spare_calls self.old }
        ensures bytes { Self.FrsDisk.spare_bytes self.new ≡ Self.FrsDisk.spare_bytes self.old };

    /// Whether the call that was to stop the disk was reached.
    fn stopped(&self) -> bool
        ensures { result ≡ (Self.FrsDisk.alarm self.now).stopped };

    /// Crashes the disk, which then holds one of the images that a crash may leave, all of it made
    /// sure of. A disk on which a stop leaves just what was armed then holds what a read gave.
    fn crash(&mut self) -> bool
        ensures can { result ≡ (Self.FrsDisk.alarm self.old).can_crash }
        ensures crashed { IsTrue result → (image : List ℕ)
            × MayLeave (Self.FrsDisk.states self.old) image
            × (Self.FrsDisk.states self.new ≡ Some (still image ∷ [])) }
        ensures read { IsTrue result → (Self.FrsDisk.alarm self.old).exact ≡ true
            → Self.FrsDisk.states self.new ≡ reread (Self.FrsDisk.states self.old) }
        ensures same { result ≡ false
            → Self.FrsDisk.states self.new ≡ Self.FrsDisk.states self.old }
        ensures calls { result ≡ false
            → Self.FrsDisk.spare_calls self.new ≡ Self.FrsDisk.spare_calls self.old }
        ensures bytes { result ≡ false
            → Self.FrsDisk.spare_bytes self.new ≡ Self.FrsDisk.spare_bytes self.old }
        ensures alarm { Self.FrsDisk.alarm self.new ≡ Self.FrsDisk.alarm self.old }
        ensures start { Self.FrsDisk.start self.new ≡ Self.FrsDisk.start self.old };

    /// How many calls failed that weren't armed. Where none was ever armed, these are all.
    fn unarmed(&self) -> u64
        ensures count { result ≡ (Self.FrsDisk.alarm self.now).unarmed }
        ensures all { (Self.FrsDisk.alarm self.now).was_armed ≡ false
            → result ≡ (Self.FrsDisk.alarm self.now).faults };
}
