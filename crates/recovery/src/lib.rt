// What is promised of the journal, over whatever can happen to its device.
#![tactic(auto)]

ghost use Rattle.recovery.specs.Machines.{JournalKeeps, JournalWithin};
ghost use Rattle.recovery.specs.Promises.{PutCosts, OpenCosts, OpensAgain, ForeignRefused, OursOpened};

// It keeps to an array of sectors, stays within its device, costs no more than this, may be opened again after any cut, and leaves a device
// alone that isn't ours.
pub fn journal_promised()
    ensures keeps { JournalKeeps }
    ensures within { JournalWithin }
    ensures put { PutCosts }
    ensures opening { OpenCosts }
    ensures again { OpensAgain }
    ensures foreign { ForeignRefused }
    ensures ours { OursOpened }
{}
