// The lines that a join tells before its last one.

ghost use Rattle.std.specs.Prelude.{◌≡◌, ◌<◌, ◌≤◌, ◌^◌, Some, length, slice_get};

use crate::owned::OwnedRegion;
use gc_graph::Line;

impl OwnedRegion {
    /// How many lines the last command tells before its last one, where it was a join.
    pub fn told_count(&self) -> u32
        ensures count { result ≡ length self.now.told }
        ensures small { length self.now.told ≤ 2 ^ 31 }
    {
        match &self.held {
            Some(held) => self.threads.reply_count() + (held.len() - self.shown),
            None => 0,
        }
    }

    /// One of these lines.
    pub fn told_line(&self, index: u32) -> Line
        requires { index < length self.now.told }
        ensures { slice_get self.now.told index ≡ Some result }
    {
        let replies = self.threads.reply_count();
        if index < replies {
            return self.threads.reply(index);
        }
        match &self.held {
            Some(held) => {
                // There are few entries, so that the sum fits.
                let _few = held.len();
                Line::Entry(held.entry(self.shown + (index - replies)))
            }
            None => unreachable!(),
        }
    }
}
