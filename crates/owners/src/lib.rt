// What who lends slots learns of them. A list is lent the caller's slots, and a step, the object map and a
// run fill lists; each function here lends its own slots, and its contract says what they hold once the
// lists are gone. All stands on the contracts of the calls: a change that hid from a lender what a list
// did with its slots would leave these without a proof.
#![tactic(auto)]

pub mod runs;
pub mod slots;
