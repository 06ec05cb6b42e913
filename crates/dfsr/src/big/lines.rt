// The lines of the script that a seed makes.
ghost use Rattle.std.specs.Prelude.{◌%◌, ◌<◌, ◌≡◌, IfOk};
ghost use Rattle.frs_base.specs.declared.kind.MemberKind.{MemberKind};
ghost use Rattle.script_lang.specs.declared.line.Line.{Line};
ghost use Rattle.dfsr.specs.Big.{behind, counts, draw, group, name_of, next, opening, path_of, peer_at, round};

use frs_base::{Bytes, List, MemberKind, Name, NameError};
use script_lang::Line;
use std::alloc::{AllocError, Global};

/// How many members there are.
const PEERS: u64 = 3;

/// How many files each member's volume may have.
const FILES: u64 = 97;

/// One of the three members, in the order of their circle.
#[derive(Clone, Copy, Debug, PartialEq, Eq)]
pub enum Peer {
    A,
    B,
    C,
}

impl Peer {
    /// The member that is drawn.
    fn of(drawn: u64) -> Peer
        ensures { result ≡ peer_at (drawn % 3) }
    {
        match drawn % PEERS {
            0 => Peer::A,
            1 => Peer::B,
            _ => Peer::C,
        }
    }

    /// The next one round the circle.
    fn behind(self) -> Peer
        ensures { result ≡ behind self }
    {
        match self {
            Peer::A => Peer::B,
            Peer::B => Peer::C,
            Peer::C => Peer::A,
        }
    }

    /// Its name.
    fn name(self, alloc: Global) -> Result<Bytes, AllocError>
        ensures { IfOk result (λ name. name ≡ name_of self) }
    {
        let letter = match self {
            Peer::A => b'a',
            Peer::B => b'b',
            Peer::C => b'c',
        };
        Ok(Bytes::of(vec![in alloc; letter]?))
    }
}

/// The number behind a number.
pub fn next(number: u64) -> u64
    ensures { result ≡ next number }
{
    number
        .wrapping_mul(6_364_136_223_846_793_005)
        .wrapping_add(1_442_695_040_888_963_407)
}

/// What a number draws.
pub fn draw(number: u64) -> u64
    ensures { result ≡ draw number }
{
    number >> 32
}

/// The place of a file of a member.
fn path(alloc: Global, file: u64) -> Result<List<Name>, AllocError>
    requires { file < 97 }
    ensures { IfOk result (λ path. path ≡ path_of file) }
{
    let text = format!(in alloc; "f{file}")?;
    let mut units = Vec::with_capacity(alloc, text.len())?;
    for byte in text.as_bytes() {
        units.push(u16::from(*byte))?;
    }
    match Name::from_vec(units) {
        Ok(name) => Ok(List::of(vec![in alloc; name]?)),
        Err(NameError::NameBad { .. }) => unreachable!(),
        Err(NameError::Memory) => Err(AllocError),
    }
}

fn member(alloc: Global, peer: Peer, kind: MemberKind) -> Result<Line, AllocError>
    ensures { IfOk result (λ line. line ≡ Line.Member (name_of peer) kind) }
{
    Ok(Line::Member {
        name: peer.name(alloc)?,
        kind,
    })
}

fn change(alloc: Global, peer: Peer, file: u64, moment: u64) -> Result<Line, AllocError>
    requires { file < 97 }
    ensures { IfOk result (λ line. line ≡ Line.Change (name_of peer) (path_of file) moment) }
{
    Ok(Line::Change {
        name: peer.name(alloc)?,
        path: path(alloc, file)?,
        moment,
    })
}

fn remove(alloc: Global, peer: Peer, file: u64) -> Result<Line, AllocError>
    requires { file < 97 }
    ensures { IfOk result (λ line. line ≡ Line.Remove (name_of peer) (path_of file)) }
{
    Ok(Line::Remove {
        name: peer.name(alloc)?,
        path: path(alloc, file)?,
    })
}

fn consume(alloc: Global, peer: Peer, moment: u64) -> Result<Line, AllocError>
    ensures { IfOk result (λ line. line ≡ Line.Consume (name_of peer) moment) }
{
    Ok(Line::Consume {
        name: peer.name(alloc)?,
        moment,
    })
}

fn pull(alloc: Global, peer: Peer, other: Peer) -> Result<Line, AllocError>
    ensures { IfOk result (λ line. line ≡ Line.Pull (name_of peer) (name_of other)) }
{
    Ok(Line::Pull {
        name: peer.name(alloc)?,
        other: other.name(alloc)?,
    })
}

fn drain(alloc: Global, peer: Peer) -> Result<Line, AllocError>
    ensures { IfOk result (λ line. line ≡ Line.Drain (name_of peer)) }
{
    Ok(Line::Drain {
        name: peer.name(alloc)?,
    })
}

fn count(alloc: Global, peer: Peer) -> Result<Line, AllocError>
    ensures { IfOk result (λ line. line ≡ Line.Count (name_of peer)) }
{
    Ok(Line::Count {
        name: peer.name(alloc)?,
    })
}

/// The lines that make the members.
pub fn opening(alloc: Global) -> Result<Vec<Line>, AllocError>
    ensures { IfOk result (λ lines. lines.items ≡ opening) }
{
    let first = member(alloc, Peer::A, MemberKind::Primary)?;
    let second = member(alloc, Peer::B, MemberKind::Plain)?;
    let third = member(alloc, Peer::C, MemberKind::Plain)?;
    Ok(vec![in alloc; first, second, third]?)
}

/// The lines of the group of this number, from what is drawn.
pub fn group(alloc: Global, drawn: u64, number: u64) -> Result<Vec<Line>, AllocError>
    ensures { IfOk result (λ lines. lines.items ≡ group drawn number) }
{
    let peer = Peer::of(drawn);
    let file = drawn / PEERS % FILES;
    match drawn / (PEERS * FILES) % 4 {
        2 => {
            let removal = remove(alloc, peer, file)?;
            let consumption = consume(alloc, peer, number)?;
            Ok(vec![in alloc; removal, consumption]?)
        }
        3 => {
            let pull = pull(alloc, peer, peer.behind())?;
            Ok(vec![in alloc; pull]?)
        }
        _ => {
            let change = change(alloc, peer, file, number)?;
            Ok(vec![in alloc; change]?)
        }
    }
}

/// The lines by which each member pulls from each, and then each drains.
pub fn round(alloc: Global) -> Result<Vec<Line>, AllocError>
    ensures { IfOk result (λ lines. lines.items ≡ round) }
{
    let mut lines = Vec::with_capacity(alloc, 9)?;
    lines.push(pull(alloc, Peer::A, Peer::B)?)?;
    lines.push(pull(alloc, Peer::A, Peer::C)?)?;
    lines.push(pull(alloc, Peer::B, Peer::A)?)?;
    lines.push(pull(alloc, Peer::B, Peer::C)?)?;
    lines.push(pull(alloc, Peer::C, Peer::A)?)?;
    lines.push(pull(alloc, Peer::C, Peer::B)?)?;
    lines.push(drain(alloc, Peer::A)?)?;
    lines.push(drain(alloc, Peer::B)?)?;
    lines.push(drain(alloc, Peer::C)?)?;
    Ok(lines)
}

/// The lines that print how much each member has.
pub fn counts(alloc: Global) -> Result<Vec<Line>, AllocError>
    ensures { IfOk result (λ lines. lines.items ≡ counts) }
{
    let of_a = count(alloc, Peer::A)?;
    let of_b = count(alloc, Peer::B)?;
    let of_c = count(alloc, Peer::C)?;
    Ok(vec![in alloc; of_a, of_b, of_c]?)
}
