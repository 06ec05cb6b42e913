// What a script arms on a disk in memory.
ghost use Rattle.std.specs.Prelude.{◌≡◌, ◌<◌, ◌-◌, Some, None, false, true};
ghost use Rattle.std.specs.declared.option.Option.{Option};
ghost use Rattle.frs_disk.specs.Alarms.{armed_at, disarmed};
ghost use Rattle.frs_disk.specs.Memory.{alarm_of};
ghost use Rattle.frs_disk.specs.Reached.{Reaches};

use crate::image::Image;

/// A call that is to fail.
#[derive(Clone, Copy, Debug, PartialEq, Eq)]
pub struct ArmedCall {
    /// How many calls come before it.
    pub before: u32,
    /// What it leaves where it stops the disk. `None`: it fails and leaves all as it was.
    pub image: Option<Image>,
}

/// What a script armed, and what came of it.
#[derive(Debug, Drop)]
pub struct Script {
    pub armed: Option<ArmedCall>,
    /// Whether the call that was to stop the disk was reached.
    pub stopped: bool,
    /// How many armed calls were reached.
    pub faults: u64,
    /// Whether a call was ever armed.
    pub was_armed: bool,
}

/// What a call came to.
#[derive(Clone, Copy, Debug, PartialEq, Eq)]
pub enum Reached {
    Passed,
    Failed,
    Stopped(Image),
}

impl Script {
    /// Nothing is armed.
    pub fn new() -> Script
        ensures { (result.armed ≡ None) × (result.stopped ≡ false) × (result.faults ≡ 0)
            × (result.was_armed ≡ false) }
    {
        Script {
            armed: None,
            stopped: false,
            faults: 0,
            was_armed: false,
        }
    }

    /// Counts a call.
    pub fn tick(&mut self) -> Reached
        ensures reached { Reaches result (alarm_of self.old) (alarm_of self.new) }
        ensures was_armed { self.new.was_armed ≡ self.old.was_armed }
        ensures idle { self.old.armed ≡ None
            → (self.new.armed ≡ None) × (self.new.faults ≡ self.old.faults) }
    {
        let Some(armed) = self.armed else {
            return Reached::Passed;
        };
        if armed.before > 0 {
            self.armed = Some(ArmedCall {
                before: armed.before - 1,
                image: armed.image,
            });
            return Reached::Passed;
        }
        self.armed = None;
        self.stopped = armed.image.is_some();
        self.faults = self.faults.saturating_add(1);
        match armed.image {
            None => Reached::Failed,
            Some(image) => Reached::Stopped(image),
        }
    }

    /// Arms a call in place of what was armed.
    pub fn arm(&mut self, call: u32, image: Option<Image>)
        requires { 0 < call }
        ensures { alarm_of self.new ≡ armed_at call image (alarm_of self.old) }
    {
        self.armed = Some(ArmedCall {
            before: call - 1,
            image,
        });
        self.stopped = false;
        self.was_armed = true;
    }

    /// Takes back what was armed.
    pub fn disarm(&mut self)
        ensures alarm { alarm_of self.new ≡ disarmed (alarm_of self.old) }
    {
        self.armed = None;
        self.stopped = false;
    }
}
