//! Domains, as bits.

ghost use Rattle.std.specs.Prelude.{◌≡◌, ◌<◌, ◌+◌, ◌/◌, ◌^◌, [], is_some, IfSome};
ghost use Rattle.pesp_instance.specs.Network.{has_event};
ghost use Rattle.pesp_domains.specs.Domains.{IsDomain};
ghost use Rattle.pesp_shell_replies.specs.Legal.{work_of};
ghost use Rattle.pesp_embedded.specs.Answered.{fronted};
ghost use Rattle.pesp_embedded.specs.Bits.{bits_from, bytes_in};
ghost use Rattle.pesp_embedded.specs.Sessions.{IsDomainShown};

use crate::Told;
use crate::event::{event_of, no_event};
use pesp_base::Period;
use pesp_bench::Bench;
use pesp_counts::CountKeeper;
use pesp_domains::Row;

/// One bit for each of eight residues, the first one lowest: set if the row holds the residue.
fn byte_from(row: &Row, first: u16) -> u8
    requires { first < 2 ^ 15 }
    ensures { result ≡ bits_from row.now first 8 }
{
    let mut byte = 0;
    for bit in 0..8 {
        if row.holds(first + bit) {
            byte |= 1u8 << bit;
        }
    }
    byte
}

/// Writes the row to the front of the room, as many bytes as fit, and returns the number of all
/// bytes. Residue r is bit r % 8 of byte r / 8.
fn put_bits(room: &mut [u8], row: &Row, period: Period) -> usize
    ensures room { room.new ≡ fronted (bytes_in row.now result) room.old }
    ensures count { result ≡ (period + 7) / 8 }
{
    let count = usize::from(period.get().div_ceil(8));
    for place in 0..count.min(room.len()) {
        room[place] = byte_from(row, 8 * place as u16);
    }
    count
}

/// The domain of the event with this number, if there is one.
fn row_of(bench: &Bench<CountKeeper>, number: u32) -> Option<&Row>
    ensures event { is_some result ≡ has_event bench.now.instance number }
    ensures row { IfSome result (λ row. IsDomain bench.now.instance [] number row.now) }
{
    let event = event_of(bench.instance(), number)?;
    bench.domain(event).ok()
}

/// Writes the domain of the event with this number to the front of the room, as many bytes as fit,
/// and reports their number.
pub(crate) fn show_domain(bench: &Bench<CountKeeper>, number: u32, room: &mut [u8]) -> Told
    ensures { IsDomainShown (work_of bench.now) number room.old room.new result }
{
    match row_of(bench, number) {
        Some(row) => {
            let count = put_bits(room, row, bench.instance().period());
            Told::ended(count as u64, 0, 0)
        }
        None => no_event(number),
    }
}
