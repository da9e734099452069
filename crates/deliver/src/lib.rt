// Frame 11: the oldest packet of a name leaves the wire and does its work where it arrives.
#![tactic(auto)]

pub mod arrive;

ghost use Rattle.std.specs.Prelude.{◌≡◌, cond, [], ◌∷◌, ◌<◌, length, IfOk};
ghost use Rattle.lists.specs.Questions.{◌asks◌, put_all, first_no};
ghost use Rattle.arrays.specs.Front.{push};
ghost use Rattle.protocol.specs.Numbers.{answered, refusal_of};
ghost use Rattle.protocol.specs.Parts.{note_room};
ghost use Rattle.protocol.specs.Packets.{has_note, note_of};
ghost use Rattle.protocol.specs.Questions.{deliver_questions, on_wire};
ghost use Rattle.protocol.specs.Step.{judged};
ghost use Rattle.head.specs.Head.{job_of, lost_of, status_of};
ghost use Rattle.item.specs.Item.{items};
ghost use Rattle.notelist.specs.Notes.{notes, packed};
ghost use Rattle.packets.specs.Fits.{Fits};
ghost use Rattle.store.specs.Places.{NOTELIST, PACKETS};
ghost use Rattle.store.specs.View.{view, Framed};
ghost use Rattle.deliver.specs.NoteEffect.{note_effect, note_questions};
ghost use Rattle.deliver.specs.View.{Answering, Asked, Names};
ghost use Rattle.deliver.specs.Frame.{in_range, first_questions, delivered, Waits, chare_outcome, note_outcome};

use memory::MEMORY;
use packets::{Found, Name};
use protocol::{Content, Kind, Note, Packet, Refusal, Rule};
use store::{LIVE, NOTELIST, NOTES, STORE, WIRE};

// Question 3: a packet's name in range. The kind comes as the byte of the frame, of any value: this is where it must be that of a `Kind`.
fn in_range(s: &[u64; STORE], kind: u8, sender: u8, receiver: u8, sn: u16) -> Result<Name, Refusal>
    ensures asked { refusal_of result ≡ first_no (3 asks in_range (job_of s.now) kind sender receiver sn ∷ []) }
    ensures named { IfOk result (Names kind sender receiver sn) }
{
    Kind::try_from(kind)?;
    if head::is_sender(s, sender) && head::is_chare(s, receiver) && (1..=60000).contains(&sn) {
        Ok(Name {
            kind,
            sender,
            receiver,
            sn,
        })
    } else {
        Err(Refusal::OutOfRange)
    }
}

// The questions before the packet is sought.
fn judge(s: &[u64; STORE], kind: u8, sender: u8, receiver: u8, sn: u16) -> Result<Name, Refusal>
    ensures asked { refusal_of result ≡ first_no (first_questions (job_of s.now) (lost_of s.now) (status_of s.now) kind sender receiver sn) }
    ensures named { IfOk result (Names kind sender receiver sn) }
{
    let name = in_range(s, kind, sender, receiver, sn);
    let up = name.is_ok_and(|name| head::is_up(
        s,
        head::destination(s, name.kind, sender, receiver),
    ));
    head::first_no(head::is_set(s), name.is_ok(), head::is_lost(s), up)?;
    name
}

// A NOTE at the note list of the receiver's machine; without room for it the list is as before.
fn note(ws: &mut [u64], p: Packet, tn: u16) -> Result<(), Refusal>
    requires ws_len { length ws.old ≡ NOTELIST }
    requires fits { Fits p }
    ensures row { Asked (note_questions (notes ws.old) (note_of p tn)) (note_effect (notes ws.old) (note_of p tn)) (λ _. notes ws.new) ws.old ws.new result }
    ensures words { items ws.new ≡ cond (has_note (notes ws.old) (note_of p tn)) (items ws.old) (push note_room (items ws.old) (packed (note_of p tn))) }
{
    let x = Note {
        sender: p.sender,
        receiver: p.receiver,
        sn: p.sn,
        tn,
    };
    if notelist::has(ws, x) {
        return Ok(());
    }
    if 64 <= notelist::count(ws) {
        return Err(Refusal::TableFull);
    }
    notelist::push(ws, x);
    Ok(())
}

// The packet at a place leaves the wire, and an answer under its own name goes on it.
fn answer(ws: &mut [u64], at: usize, p: Packet, reply: Option<Content>)
    requires { length ws.old ≡ PACKETS }
    ensures { Answering ws.old ws.new at p reply }
{
    packets::leave(ws, at);
    if let Some(content) = reply {
        packets::join(ws, Packet { content, ..p });
    }
}

fn deliver_note(s: &mut [u64; STORE], at: usize, p: Packet, tn: u16) -> Result<Rule, Refusal>
    requires { Waits (view s.old) at p }
    ensures { Framed s.old s.new (answered result) (note_outcome (view s.old) at p tn) }
{
    let h = head::home(s, p.receiver) as usize;
    let a = NOTES + h * NOTELIST;
    note(&mut s[a..a + NOTELIST], p, tn)?;
    answer(&mut s[WIRE..], at, p, Some(Content::Ack));
    Ok(Rule::Other)
}

// A GRANT goes to its sender, any other packet to its receiver.
fn deliver_to(s: &mut [u64; STORE], c: u8, at: usize, p: Packet) -> Result<Rule, Refusal>
    requires c_bound { c < 13 }
    requires waits { Waits (view s.old) at p }
    ensures { Framed s.old s.new (answered result) (chare_outcome (view s.old) c at p) }
{
    let a = LIVE + c as usize * MEMORY;
    let done = arrive::arrive(&mut s[a..a + MEMORY], p)?;
    answer(&mut s[WIRE..], at, p, done.reply);
    Ok(done.rule)
}

// A delivery refused leaves the packet on the wire; one accepted takes it off before an answer is put on.
pub fn deliver(
    s: &mut [u64; STORE],
    kind: u8,
    sender: u8,
    receiver: u8,
    sn: u16,
) -> Result<Rule, Refusal>
    ensures { Framed s.old s.new (answered result) (judged (view s.old) (put_all (deliver_questions (view s.old) kind sender receiver sn) (delivered (view s.old) kind sender receiver sn (on_wire (view s.old) kind sender receiver sn)))) }
{
    let name = judge(s, kind, sender, receiver, sn)?;
    let Found { place, packet } = packets::find(&s[WIRE..], name).ok_or(Refusal::Missing)?;
    if let Content::Note(tn) = packet.content {
        return deliver_note(s, place, packet, tn);
    }
    let to = if kind == Kind::Grant.number() {
        sender
    } else {
        receiver
    };
    deliver_to(s, to, place, packet)
}
