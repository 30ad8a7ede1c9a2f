// The laws of strong and weak slots as programs use them, as in laws.rt.

ghost use Rattle.gc_graph.specs.HandleLaw.{LastLinesMean, SlotsNameTheLive, WeakSlotsTellLives};

/// What a slot names is live, whether it is strong or weak.
pub fn slots_name_the_live()
    ensures { SlotsNameTheLive }
{}

/// A weak slot names its node as long as that lives, through steps and collections, and then nothing.
pub fn weak_slots_tell_lives()
    ensures { WeakSlotsTellLives }
{}

/// Each command tells a line at least, and the last one means what came of the command: that it was
/// done, and how; what was read; why it was refused; or what was wanting.
pub fn last_lines_mean()
    ensures { LastLinesMean }
{}
