// The law of node slots. The call does nothing: its clauses are what is proved.
ghost use Rattle.client_threads.specs.SlotsSuffice.{SlotsSufficeLaw, OwnSlotsSufficeLaw};

/// Refusals for want of node slots, in any legal run. A client with more slots than PUT, PUTNEW and DELETE lines gets
/// none, since each of its updates is made by one of these lines. A session gives each client that many, so its text
/// has none.
pub fn slots_suffice()
    ensures enough { SlotsSufficeLaw }
    ensures own { OwnSlotsSufficeLaw }
{}
