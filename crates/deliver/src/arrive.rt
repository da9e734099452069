// What a packet does to the memory of the chare that it goes to, in place.
ghost use Rattle.std.specs.Prelude.{◌≡◌, ◌%◌, ◌<◌, length, None, Some};
ghost use Rattle.protocol.specs.Packets.{is_worked};
ghost use Rattle.protocol.specs.Tickets.{entry};
ghost use Rattle.packets.specs.Fits.{Fits};
ghost use Rattle.memory.specs.Places.{MEMORY};
ghost use Rattle.memory.specs.View.{memory_view};
ghost use Rattle.deliver.specs.Effect.{grant_of, ask_questions, ask_effect, grant_old_effect, grant_received_effect, grant_new_effect, data_effect, ack_effect, effect, effect_questions};
ghost use Rattle.deliver.specs.View.{effect_of, Asked};

use memory::{LOG, MEMORY, TABLE};
use protocol::{Content, Entry, Lookup, Packet, Refusal, Rule};

// What a packet leaves beside the memory: the rule used, and what goes back under the packet's own name.
#[derive(Clone, Copy)]
pub struct Done {
    pub rule: Rule,
    pub reply: Option<Content>,
}

fn quiet(rule: Rule) -> Done
    ensures { result ≡ record { rule = rule; reply = None } }
{
    Done { rule, reply: None }
}

fn answering(rule: Rule, content: Content) -> Done
    ensures { result ≡ record { rule = rule; reply = Some content } }
{
    Done {
        rule,
        reply: Some(content),
    }
}

// The GRANT of an entry found: received or new, as marked.
#[tactic(auto, unfolding(crate::specs::Effect::grant_of))]
fn grant_of(e: Entry) -> Content
    ensures { result ≡ grant_of e }
{
    if e.received {
        Content::GrantReceived(e.tn)
    } else {
        Content::GrantNew(e.tn)
    }
}

// ASK: an entry found, or the SN worked, or a new ticket, not received and noted from the start.
fn ask(m: &mut [u64], sender: u8, sn: u16) -> Result<Done, Refusal>
    requires m_len { length m.old ≡ MEMORY }
    requires sender_bound { sender < 16 }
    ensures { Asked
        (ask_questions (memory_view m.old) sender sn (entry (memory_view m.old).table sender sn) (is_worked (memory_view m.old) sender sn))
        (ask_effect (memory_view m.old) sender sn (entry (memory_view m.old).table sender sn) (is_worked (memory_view m.old) sender sn))
        (effect_of m.new) m.old m.new result }
{
    if let Some(e) = tickets::find(&m[TABLE..LOG], sender, sn) {
        return Ok(answering(Rule::AskFound, grant_of(e)));
    }
    let seen = memory::seen(m, sender, sn);
    if window::worked(seen) {
        return Ok(answering(Rule::AskWorked, Content::GrantOld));
    }
    let height = memory::height(m);
    let top = memory::top(m);
    let tn = tickets::next_tn(&m[TABLE..LOG], height, top);
    if 60000 < tn {
        return Err(Refusal::TooHigh);
    }
    if !window::admitted(seen) {
        return Err(Refusal::BeyondWindow);
    }
    if 16 <= tickets::count(&m[TABLE..LOG]) {
        return Err(Refusal::TableFull);
    }
    let tn = tn as u16;
    tickets::enter(&mut m[TABLE..LOG], sender, sn, tn);
    Ok(answering(Rule::AskNew, Content::GrantNew(tn)))
}

// GRANT old: the message goes. Here and in the two below the log lookup is an enum that `let .. else` opens: document 01 names that form.
fn grant_old(m: &mut [u64], receiver: u8, sn: u16) -> Done
    requires { length m.old ≡ MEMORY }
    ensures { effect_of m.new result ≡ grant_old_effect (memory_view m.old) receiver sn }
{
    let Lookup::Unticketed(_) = logs::lookup(&m[LOG..MEMORY], receiver, sn) else {
        return quiet(Rule::GrantDropped);
    };
    logs::remove(&mut m[LOG..MEMORY], receiver, sn);
    quiet(Rule::GrantOld)
}

// GRANT received: the message gets its TN.
fn grant_received(m: &mut [u64], receiver: u8, sn: u16, tn: u16) -> Done
    requires { length m.old ≡ MEMORY }
    ensures { effect_of m.new result ≡ grant_received_effect (memory_view m.old) receiver sn tn }
{
    let Lookup::Unticketed(_) = logs::lookup(&m[LOG..MEMORY], receiver, sn) else {
        return quiet(Rule::GrantDropped);
    };
    logs::set_ticket(&mut m[LOG..MEMORY], receiver, sn, tn);
    quiet(Rule::GrantReceived)
}

// GRANT new: the message gets its TN and is sent as DATA.
fn grant_new(m: &mut [u64], receiver: u8, sn: u16, tn: u16) -> Done
    requires { length m.old ≡ MEMORY }
    ensures { effect_of m.new result ≡ grant_new_effect (memory_view m.old) receiver sn tn }
{
    let Lookup::Unticketed(message) = logs::lookup(&m[LOG..MEMORY], receiver, sn) else {
        return quiet(Rule::GrantDropped);
    };
    logs::set_ticket(&mut m[LOG..MEMORY], receiver, sn, tn);
    let data = Content::Data {
        value: message.value,
        hops: message.hops,
    };
    answering(Rule::GrantNew, data)
}

// DATA fills an unreceived entry.
fn data_in(m: &mut [u64], sender: u8, sn: u16, value: u16, hops: u8) -> Done
    requires { length m.old ≡ MEMORY }
    ensures { effect_of m.new result ≡ data_effect (memory_view m.old) sender sn value (hops % 8) (entry (memory_view m.old).table sender sn) }
{
    match tickets::find(&m[TABLE..LOG], sender, sn) {
        Some(e) if !e.received => {
            tickets::fill(&mut m[TABLE..LOG], sender, sn, value, hops);
            quiet(Rule::DataFilled)
        }
        _ => quiet(Rule::DataDropped),
    }
}

// ACK marks the entry noted.
fn ack(m: &mut [u64], sender: u8, sn: u16) -> Done
    requires { length m.old ≡ MEMORY }
    ensures { effect_of m.new result ≡ ack_effect (memory_view m.old) sender sn }
{
    tickets::note(&mut m[TABLE..LOG], sender, sn);
    quiet(Rule::Other)
}

// What a packet does to the memory of the chare that it goes to. A NOTE goes to a note list, and leaves the memory.
pub fn arrive(m: &mut [u64], p: Packet) -> Result<Done, Refusal>
    requires m_len { length m.old ≡ MEMORY }
    requires fits { Fits p }
    ensures { Asked (effect_questions (memory_view m.old) p p.content) (effect (memory_view m.old) p p.content) (effect_of m.new) m.old m.new result }
{
    match p.content {
        Content::Ask => ask(m, p.sender, p.sn),
        Content::GrantOld => Ok(grant_old(m, p.receiver, p.sn)),
        Content::GrantReceived(tn) => Ok(grant_received(m, p.receiver, p.sn, tn)),
        Content::GrantNew(tn) => Ok(grant_new(m, p.receiver, p.sn, tn)),
        Content::Data { value, hops } => Ok(data_in(m, p.sender, p.sn, value, hops)),
        Content::Note(_) => Ok(quiet(Rule::Other)),
        Content::Ack => Ok(ack(m, p.sender, p.sn)),
    }
}
