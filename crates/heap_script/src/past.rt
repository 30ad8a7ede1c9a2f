// What the lines before say, and what one more adds.

ghost use Rattle.std.specs.Prelude.{◌≡◌, ◌<◌};
ghost use Rattle.gc_graph.specs.Script.{are_at_rest};
ghost use Rattle.heap_script.specs.Past as spec;

use gc_graph::Command;

/// Of the threads of the script: no order waits and none runs, orders wait, or they run.
#[derive(Clone, Copy, Drop)]
pub(crate) enum Stage {
    AtRest,
    Waiting,
    Going,
}

/// The version that the header names, how many lines there are, the header among them, the number of
/// the last one with words, how many types they declare, whether no command stands among them, and the
/// stage of the threads.
#[derive(Clone, Copy, Drop)]
pub(crate) struct Past {
    pub(crate) version: u8,
    pub(crate) lines: u32,
    pub(crate) last: u32,
    pub(crate) types: u32,
    pub(crate) bare: bool,
    pub(crate) stage: Stage,
}

impl Past {
    pub(crate) fn new(version: u8) -> Past
        ensures { result ≡ spec.past_header version }
    {
        Past {
            version,
            lines: 1,
            last: 1,
            types: 0,
            bare: true,
            stage: Stage::AtRest,
        }
    }

    pub(crate) fn add_blank(&mut self)
        requires { self.old.lines < 1000000 }
        ensures { self.new ≡ spec.with_blank self.old }
    {
        self.lines += 1;
    }

    pub(crate) fn add_type(&mut self)
        requires lines { self.old.lines < 1000000 }
        requires types { self.old.types < 16383 }
        ensures { self.new ≡ spec.with_type self.old }
    {
        self.note();
        self.types += 1;
    }

    pub(crate) fn add_command(&mut self, command: &Command)
        requires { self.old.lines < 1000000 }
        ensures { self.new ≡ spec.with_command self.old command.now }
    {
        self.note();
        self.bare = false;
        match *command {
            Command::At { .. } => self.stage = Stage::Waiting,
            Command::ThreadsGo => self.stage = Stage::Going,
            Command::ThreadsJoin => self.stage = Stage::AtRest,
            _ => {}
        }
    }

    /// The same, for a command that no thread's order is.
    #[inline(always)]
    pub(crate) fn add_plain(&mut self, command: &Command)
        requires lines { self.old.lines < 1000000 }
        requires plain { spec.IsPlain command.now }
        ensures { self.new ≡ spec.with_command self.old command.now }
    {
        let _ = command;
        self.note();
        self.bare = false;
    }

    // One more line with words.
    fn note(&mut self)
        requires { self.old.lines < 1000000 }
        ensures { self.new ≡ spec.with_words self.old }
    {
        self.lines += 1;
        self.last = self.lines;
    }

    /// Whether a command doesn't stand where it should among the threads' orders.
    pub(crate) fn breaks(&self, command: &Command) -> bool
        ensures { result ≡ spec.breaks self.now.stage command.now }
    {
        match *command {
            Command::At { .. } => self.stage.is_going(),
            Command::ThreadsGo => !self.stage.is_waiting(),
            Command::ThreadsJoin => !self.stage.is_going(),
            _ => false,
        }
    }

    /// Whether no order waits and no thread runs.
    pub(crate) fn is_at_rest(&self) -> bool
        ensures { result ≡ are_at_rest (spec.threads_of_stage self.now.stage) }
    {
        self.stage.is_at_rest()
    }
}

impl Stage {
    fn is_at_rest(self) -> bool
        ensures { result ≡ are_at_rest (spec.threads_of_stage self) }
    {
        matches!(self, Stage::AtRest)
    }

    fn is_waiting(self) -> bool
        ensures { result ≡ spec.is_waiting self }
    {
        matches!(self, Stage::Waiting)
    }

    fn is_going(self) -> bool
        ensures { result ≡ spec.is_going self }
    {
        matches!(self, Stage::Going)
    }
}
