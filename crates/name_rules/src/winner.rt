// Which record has a name in a directory.
ghost use Rattle.std.specs.Prelude.{◌≡◌, option_map};
ghost use Rattle.name_rules.specs.Shown.{AreDistinct};
ghost use Rattle.name_rules.specs.Winner.{IsNameWinner, leader_of, wants};

use frs_base::{Name, Uid};
use win_order::Update;

/// Whether an update is a present one of this directory, with a matching name.
fn wants(update: &Update, parent: &Uid, name: &Name) -> bool
    ensures { result ≡ wants parent.now name.now update.now }
{
    update.present && update.parent == *parent && update.name.matches(name)
}

/// Of the one that led before, if there was one, and an update the one with the greater key.
fn leader<'a>(leader: Option<&'a Update>, update: &'a Update) -> Option<&'a Update>
    ensures { option_map (λ u. u.now) result ≡ leader_of (option_map (λ u. u.now) leader.entry) update.now }
{
    match leader {
        None => Some(update),
        Some(other) => {
            if other.key() < update.key() {
                Some(update)
            } else {
                Some(other)
            }
        }
    }
}

/// The file or directory that has this name in this directory: that of the greatest key among the
/// present records that are in the directory and whose names match. None where there is none.
///
/// It says nothing of whether the directory itself is shown.
pub fn name_winner(records: &[Update], parent: Uid, name: &Name) -> Option<Uid>
    requires { AreDistinct records.now }
    ensures { IsNameWinner records.now parent name.now result }
{
    let mut winner = None;
    for update in records {
        if wants(update, &parent, name) {
            winner = leader(winner, update);
        }
    }
    winner.map(|update| update.uid)
}
