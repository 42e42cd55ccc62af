// Houses with three copies that agree: what is promised of them together, for every service and every keeper of its blocks. Each contract
// says that a statement of `copies` has this proof.
#![tactic(auto)]

ghost use Rattle.copies.specs.Service.{Lawful};
ghost use Rattle.copies.specs.Cells.{cells, Alive, CatchesUp};
ghost use Rattle.copies_agree.specs.Held.{AgreementHeld, CaughtUpHeld, AsOneHeld, BusyHeld, AnswersHeld, AnswersWithinHeld, StoredFirstHeld, CellsKept, PostsHeld, CommandsHeld, CounterHeld};

// There is one sequence of commands, and each copy has, whenever it is looked at, the state after the first of them; one that catches up
// has each block as it was after so many, from its base to its top.
pub fn copies_agree()
    ensures agree { AgreementHeld }
    ensures caught_up { CaughtUpHeld }
{}

// The houses are as one place, and nothing is ever cut.
pub fn houses_are_as_one()
    ensures { AsOneHeld }
{}

// Busy is said only at once, and only where eight calls wait, whatever packet comes.
pub fn busy_at_nine()
    ensures { BusyHeld }
{}

// With any one house out, all calls that wait at the others can be answered, in a number of steps that is told: of houses that admit every
// event, and of those that admit only what fits them, from what comes to be in fewer than 2^56 steps.
pub fn houses_answer()
    ensures every { AnswersHeld }
    ensures within { AnswersWithinHeld }
{}

// What a copy says of itself it has stored before.
pub fn stored_first()
    ensures { StoredFirstHeld }
{}

// What the code computes part by part is what the definition of a whole event says: what is sent, what a command's calls leave, and that the
// counter of bundles fits when a status or a part goes on.
pub fn parts_make_events()
    ensures posts { PostsHeld }
    ensures commands { CommandsHeld }
    ensures counter { CounterHeld }
{}

// There is a service, and a keeper of its blocks, that are what the theorems ask of one: a keeper that forgets, and refuses what it has no
// place for.
#[tactic(auto, using(replicated::proofs::Cells::cells_lawful))]
pub fn cells_are_lawful()
    ensures lawful { Lawful cells }
    ensures keeps { CellsKept }
{}

// Of it, a run in which a call is answered, and one in which a copy that missed commands catches up by parts.
#[tactic(auto, using(replicated::proofs::Alive::alive, replicated::proofs::Alive::catches_up))]
pub fn cells_answer()
    ensures answers { Alive }
    ensures catches_up { CatchesUp }
{}
