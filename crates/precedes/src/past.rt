// The past of a processing: the records from which a chain leads to it.
ghost use Rattle.std.specs.Prelude.{◌≤◌};
ghost use Rattle.precedes.specs.Visits.{Falls, Whole, Visited};

// Marks the record at a place and all that came before it; place 0 is no record. Each record is visited once, so the time is linear.
pub fn visit(before: &[u16; 512], sent: &[u16; 512], seen: &mut [bool; 512], place: u16)
    requires low { place ≤ 512 }
    requires falls { Falls before.now × Falls sent.now }
    requires whole { Whole before.now sent.now seen.old place }
    ensures { Visited before.now sent.now place seen.old seen.new }
{
    if place == 0 {
        return;
    }
    let i = place as usize - 1;
    if seen[i] {
        return;
    }
    seen[i] = true;
    visit(before, sent, seen, before[i]);
    visit(before, sent, seen, sent[i]);
}
