//! Laws of the reply.
ghost use Rattle.qk_enum.specs.Laws.{OneReply, SomeReply, WorkersDecideNothing};

/// The number of workers decides nothing of the reply.
pub fn workers_decide_nothing()
    ensures { WorkersDecideNothing }
{}

/// Words and the bytes of their file have one reply at most.
pub fn replies_are_one()
    ensures { OneReply }
{}

/// All words and all bytes of their file have a reply.
pub fn replies_exist()
    ensures { SomeReply }
{}
