//! The check of a binner list.
ghost use Rattle.field_words.specs.declared.stop.Stop.TheVariants.{Fault, NoMemory as OutOfMemory};
ghost use Rattle.field_words.specs.Sizes.{most_list};
ghost use Rattle.buffer_table.specs.Table.{most_place};
ghost use Rattle.std.specs.Prelude.{◌≡◌, ◌≤◌, ◌+◌, Err, [], length, OnOk, IfOk};
ghost use Rattle.field_words.specs.Questions.{Answers, with_answers, first_of};
ghost use Rattle.field_words.specs.Writes.{with_bytes};
ghost use Rattle.buffer_table.specs.Handles.{AreNumbersOf};
ghost use Rattle.bin_list.specs.Packets.{packets_passed};
ghost use Rattle.bin_list.specs.Seen.{seen_before};
ghost use Rattle.bin_list.specs.Faults.{fault, IsUpTo};
ghost use Rattle.bin_list.specs.Rules.{questions_of_packets, end_questions, given_of, bin_questions};
ghost use Rattle.bin_list.specs.Fine.{IsLow};
ghost use Rattle.bin_list.specs.Emitted.{texts, bin_text};
ghost use Rattle.bin_list.specs.Info.{IsInfo, IsInfoOf, IsRead, MeetsState};
ghost use Rattle.bin_list.specs.Report.{IsSoundInfo};
ghost use Rattle.field_words.specs.Least.{NamesLeast};

use crate::cut::{plain_front, split_front, split_plain};
use crate::emit::{put, put_packet};
use crate::fault::ListFault;
use crate::given::Given;
use crate::info::BinInfo;
use crate::rules::{end_fault, packet_fault};
use crate::seen::Seen;
use crate::states::States;
use buffer_table::{Handles, Table};
use field_words::Stop;
use relocation::Layout;
use std::alloc::Global;

/// A list that was read to its end: what stands before that end, where the emitted list ends in the window, and the shader
/// states.
#[derive(Drop)]
pub(crate) struct Read {
    seen: Seen,
    end: usize,
    states: States,
}

/// Reads the list packet by packet, up to its end or to a halt, and writes each packet that its rules allow.
fn read_packets(
    alloc: Global,
    given: &Given,
    list: &[u8],
    layout: &Layout,
    out: &mut [u8],
) -> Result<Read, Stop<ListFault>>
    requires short { length list.now ≤ most_list }
    requires few { given.now.declared ≤ 65536 }
    requires low { IsLow layout.now }
    requires room { layout.now.bin + length list.now ≤ length out.old }
    ensures answers { Answers (questions_of_packets given.now (packets_passed list.now))
        (λ read. IsRead given.now layout.now list.now read) result }
    ensures put { OnOk result (out.new
        ≡ with_bytes out.old layout.now.bin
        (texts given.now layout.now (packets_passed list.now))) }
    ensures memory { result ≡ Err OutOfMemory → MeetsState given.now list.now }
{
    let mut states = States::new(alloc, given.declared);
    let mut seen = Seen::nothing();
    let mut end = layout.bin as usize;
    let mut rest = list;
    while !rest.is_empty() {
        if let Some(taken) = plain_front(rest) {
            let (packet, behind) = split_plain(rest, taken);
            end = put(out, end, packet);
            seen.go_past_plain(packet);
            rest = behind;
            continue;
        }
        let (packet, behind) = split_front(rest);
        if let Some(rule) = packet_fault(given, &seen, packet) {
            return Err(Stop::Fault(ListFault {
                number: rule.number(),
                at: seen.at,
            }));
        }
        end = put_packet(given, layout, &seen, packet, out, end);
        states.pass(packet)?;
        seen.go_past(packet);
        rest = behind;
    }
    Ok(Read { seen, end, states })
}

/// The rules of the list's end, and then what the list tells.
fn finish(
    given: &Given,
    list: &[u8],
    layout: &Layout,
    read: Read,
) -> Result<BinInfo, Stop<ListFault>>
    requires size { given.now.size ≡ length list.now }
    requires short { length list.now ≤ most_list }
    requires fine { first_of (questions_of_packets given.now (packets_passed list.now)) ≡ None }
    requires read { IsRead given.now layout.now list.now read }
    ensures answers { Answers (with_answers (fault given.now.size)
        (end_questions (seen_before (packets_passed list.now))))
        (λ info. IsInfoOf given.now layout.now list.now info) result }
    ensures sound { IfOk result (λ info. IsSoundInfo given.now.declared info) }
    ensures memory { result ≡ Err OutOfMemory → 1 ≤ (seen_before (packets_passed list.now)).states }
{
    let Read { seen, end, states } = read;
    if let Some(rule) = end_fault(&seen) {
        return Err(Stop::Fault(ListFault {
            number: rule.number(),
            at: list.len() as u32,
        }));
    }
    let states = states.finish()?;
    Ok(BinInfo {
        tiles_x: seen.tiles_x,
        tiles_y: seen.tiles_y,
        states,
        length: (end - layout.bin as usize) as u32,
    })
}

/// Checks a binner list and writes the one that the hardware is given at its place in `out`, the window of the lists' region;
/// no other byte changes. `declared` is the number of shader states that the job declares. The places in `layout` are put
/// in: that of the records, of the tile slot, and of the region itself.
///
/// The fault is the first broken rule, by place and then by number; then `out` may hold any bytes. Memory is taken for
/// the states alone, so want of memory is answered only where no rule is broken up to the list's first shader state.
pub fn check_bin(
    alloc: Global,
    list: &[u8],
    declared: u32,
    table: &Table,
    handles: &Handles,
    layout: &Layout,
    out: &mut [u8],
) -> Result<BinInfo, Stop<ListFault>>
    requires numbers { AreNumbersOf table.now handles.now }
    requires short { length list.now ≤ most_list }
    requires few { declared ≤ 65536 }
    requires place_limit { layout.now.place ≤ most_place }
    requires records_limit { layout.now.records ≤ most_list + 16 }
    requires slot_limit { layout.now.slot ≤ most_place }
    requires room { layout.now.bin + length list.now ≤ length out.old }
    ensures answers { Answers (bin_questions list.now declared table.now handles.now)
        (λ info. IsInfo list.now declared table.now handles.now layout.now info) result }
    ensures least { NamesLeast IsUpTo (bin_questions list.now declared table.now
        handles.now) result }
    ensures sound { IfOk result (λ info. IsSoundInfo declared info) }
    ensures put { OnOk result (out.new ≡ with_bytes out.old layout.now.bin
        (bin_text list.now declared table.now handles.now layout.now)) }
    ensures fits { OnOk result (length (bin_text list.now declared table.now handles.now layout.now)
        ≤ length list.now) }
    ensures long { length out.new ≡ length out.old }
    ensures memory { result ≡ Err OutOfMemory
        → MeetsState (given_of list.now declared table.now handles.now) list.now }
{
    let given = Given {
        size: list.len(),
        declared,
        table,
        handles,
    };
    match read_packets(alloc, &given, list, layout, out) {
        Ok(read) => finish(&given, list, layout, read),
        Err(stop) => Err(stop),
    }
}
