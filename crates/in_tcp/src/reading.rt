//! Reads of one connection.

ghost use Rattle.std.specs.Prelude.{◌≡◌, ◌≤◌, ◌<◌, ◌-◌, Ok, drop, length, take};
ghost use Rattle.io_traits.specs.Pieces.{IfBytes, gave};
ghost use Rattle.in_tcp.specs.Reads.{Found, IsRead, piece_found};

use io_traits::{Links, Step};

// Reads a connection, and closes it at its end.
fn read<L: Links>(links: &mut L, conn: u32, into: &mut [u8]) -> Step
    requires came { conn < L.came links.old }
    requires room { 0 < length into.old }
    ensures within { IfBytes (Ok result) (λ n. n ≤ length into.old) }
    ensures read { (found : Found) × (piece_found found ≡ gave (Ok result) into.new)
        × IsRead L.Links conn links.old links.new found }
{
    match links.read(conn, into) {
        Ok(Step::Bytes(count)) => Step::Bytes(count),
        Ok(Step::NotYet) => Step::NotYet,
        Ok(Step::End) | Err(_) => {
            links.close(conn);
            Step::End
        }
    }
}

/// Reads a connection into a room, behind its first bytes, and closes it at its end and where the read fails, which is its end too.
pub(crate) fn read_behind<L: Links>(links: &mut L, conn: u32, held: usize, room: &mut [u8]) -> Step
    requires came { conn < L.came links.old }
    requires room { held < length room.old }
    ensures len { length room.new ≡ length room.old }
    ensures front { take held room.new ≡ take held room.old }
    ensures within { IfBytes (Ok result) (λ n. n ≤ length room.old - held) }
    ensures read { (found : Found) × (piece_found found ≡ gave (Ok result) (drop held room.new))
        × IsRead L.Links conn links.old links.new found }
{
    read(links, conn, &mut room[held..])
}
