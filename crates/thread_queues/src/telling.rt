// What the orders of threads were answered.

ghost use Rattle.std.specs.Prelude.{◌≡◌, ◌^◌, ◌<◌, ◌≤◌, Some, length, slice_get};

use crate::queues::ThreadQueues;
use gc_graph::Line;

impl ThreadQueues {
    /// How many orders of the threads that were joined last were answered.
    pub fn reply_count(&self) -> u32
        ensures count { result ≡ length self.now.replies }
        ensures few { length self.now.replies ≤ 2 ^ 30 }
    {
        let mut count = 0;
        for i in 0..self.threads.len() {
            count += self.threads[i].replies().len() as u32;
        }
        count
    }

    /// What one of these orders was answered, thread after thread.
    pub fn reply(&self, index: u32) -> Line
        requires { index < length self.now.replies }
        ensures { slice_get self.now.replies index ≡ Some result }
    {
        let mut left = index;
        for i in 0..self.threads.len() {
            let replies = self.threads[i].replies();
            if left < replies.len() as u32 {
                return replies[left as usize];
            }
            left -= replies.len() as u32;
        }
        unreachable!()
    }
}
