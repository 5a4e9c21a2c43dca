// A message type: the bytes that are its tables, the record that is held of a message, and the rules of both. What is done with a message of
// any type is written once, over this trait, in the crates above.
//
// A type is tied by its shape to what format's specs say of any message type, and brings the laws from which the demands follow.
#![tactic(auto)]

ghost use Rattle.std.specs.Prelude.{◌≡◌, ℕ, ◌≤◌, List, [], true, length};
ghost use Rattle.text.specs.Copy.{placed, after};
ghost use Rattle.stretches.specs.Stretches.{stretch_of};
ghost use Rattle.forms.specs.Slots.{slot_at};
ghost use Rattle.layout.specs.Rows.{rows_of};
ghost use Rattle.sheets.specs.Trees.{table_of};
ghost use Rattle.fill.specs.Filling.{is_any};
ghost use Rattle.fill.specs.Runs.{over_run, behind_run};
ghost use Rattle.format.specs.Format.{optional};
ghost use Rattle.format.specs.Writing.{message_of};
ghost use Rattle.format.proofs.Chain.{Readable};
ghost use Rattle.format.proofs.Laws.{Laws};
ghost use Rattle.format.proofs.Field.{Fields};
ghost use Rattle.format.proofs.Lent.{Amounts};
ghost use Rattle.format.proofs.Moved.{onto, movable};
ghost use Rattle.format.proofs.Outline.{Outlined};
ghost use Rattle.writer.specs.Parts.{parts_for};
ghost use Rattle.message_type.specs.Shape.{Shape, of};

use lines::Verdict;

// No message type has longer messages.
pub const LONGEST: usize = 1476;

pub trait MessageType {
    // What is held of a message.
    type Record: Copy;

    ghost shape: { Shape Self.Record };

    // The slots of the amounts, which the plain form tidies.
    ghost amounts: { List ℕ };

    // The line of the header, counted from 0, that stands behind the fields beside the password.
    ghost line: { ℕ };

    // The slots of the header's lines.
    fn header() -> &'static [u8]
        ensures { result.now ≡ shape.header };

    // Sixteen bytes a row: its kind, its slot, the length of its text, the text.
    fn rows() -> &'static [u8]
        ensures { rows_of result.now ≡ table_of shape.tree };

    // Twenty bytes a slot: its form, least and most width, the length of its fixed text, the text.
    fn slots() -> &'static [u8]
        ensures { slot_at result.now ≡ shape.slot_of };

    // The slots that the layout makes optional.
    fn optional() -> &'static [u8]
        ensures { is_any result.now ≡ optional (of shape) };

    fn amounts() -> &'static [u8]
        ensures { result.now ≡ amounts };

    // The record that stands beside a refusal.
    fn blank() -> Self::Record
        ensures { result ≡ shape.blank };

    // The record of a message, from where the value of each slot begins and ends.
    fn gather<'a, 'b>(message: &'a [u8], starts: &'b [usize], ends: &'b [usize]) -> Self::Record
        ensures { result ≡ shape.record_of (stretch_of message.now starts.now ends.now) };

    // The rules of line 0 when a message is read, of its values and their record.
    fn read_rules<'a, 'b>(
        message: &'a [u8],
        starts: &'b [usize],
        ends: &'b [usize],
        held: Self::Record,
    ) -> Verdict
        ensures { result ≡ shape.read_rules (stretch_of message.now starts.now ends.now) held };

    // The fields of a record are in form.
    fn in_form(held: Self::Record) -> bool
        ensures { result ≡ shape.in_form held };

    // The rules of line 0 when a record is written.
    fn write_rules(held: Self::Record) -> Verdict
        ensures { result ≡ shape.write_rules held };

    // Puts a message with lent values, a text and for each slot where its value begins and ends, from the start of the buffer, each part
    // where it has room, and answers the place behind it. The bytes of the header, the rows and the slots are lent to the writer here alone, for
    // writing and for the plain form.
    fn put<'a>(buf: &mut [u8], text: &[u8], starts: &'a [usize], ends: &'a [usize]) -> usize
        ensures { (result ≡ behind_run buf.old 0 (parts_for (of shape) (stretch_of text.now starts.now ends.now))) × (buf.new ≡ over_run buf.old 0 (parts_for (of shape) (stretch_of text.now starts.now ends.now))) }
    {
        writer::put_message(
            buf,
            Self::header(),
            Self::rows(),
            Self::slots(),
            Self::optional(),
            text,
            starts,
            ends,
        )
    }

    // The message of a record, into a buffer that has room for it, and the place behind it.
    fn compose(buf: &mut [u8], held: Self::Record) -> usize
        requires { length (message_of (of shape) held) ≤ length buf.old }
        ensures { (result ≡ after buf.old 0 (message_of (of shape) held)) × (buf.new ≡ placed buf.old 0 (message_of (of shape) held)) };

    // The last field that may be asked for.
    fn fields() -> usize
        ensures { result ≡ shape.fields };

    // How many bytes of a slot's value are not its field's: one at most.
    fn beyond(slot: usize) -> usize
        ensures { (result ≡ shape.beyond slot) × (result ≤ 1) };

    fn line() -> usize
        ensures { result ≡ line };

    ghost readable: { Readable (of shape) };

    ghost laws: { Laws (of shape) };

    ghost has_fields: { Fields (of shape) };

    ghost has_amounts: { (movable amounts [] ≡ true) × Amounts (of shape) (onto amounts []) };

    ghost outlined: { Outlined (of shape) line };

    ghost short: { shape.longest ≤ 1476 };
}
