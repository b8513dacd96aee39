//! Who of the client threads asks next: one that was answered lets those that sleep, or have not asked
//! yet, ask first, so that no thread makes all the calls. Nothing is proved of it but that it returns.

/// Who asked last, and who sleeps.
#[derive(Drop)]
pub(crate) struct Turns {
    /// The thread that asked last.
    last: Option<u32>,
    /// How many threads sleep until something has changed, or have not asked yet.
    asleep: u32,
    /// The thread that sleeps so that the others ask first.
    held: Option<u32>,
}

impl Turns {
    /// The turns of so many threads, none of which has asked yet.
    pub(crate) fn new(threads: u32) -> Self {
        Turns {
            last: None,
            asleep: threads,
            held: None,
        }
    }

    /// Whether a thread has to let others ask first: it asked last, and others sleep. Else it asks now.
    pub(crate) fn hold(&mut self, thread: u32) -> bool {
        let is_held = self.asleep > 0 && self.last == Some(thread);
        if is_held {
            self.held = Some(thread);
        } else {
            self.last = Some(thread);
        }
        is_held
    }

    /// Frees the thread that lets others ask first, once one has, and says whether there was one.
    pub(crate) fn free_held(&mut self) -> bool {
        let is_free = self.held.is_some() && self.held != self.last;
        if is_free {
            self.held = None;
        }
        is_free
    }

    /// Counts a thread that goes to sleep.
    pub(crate) fn begin_sleep(&mut self) {
        self.asleep = self.asleep.saturating_add(1);
    }

    /// Counts a thread as awake: it was woken, or asks for the first time.
    pub(crate) fn end_sleep(&mut self) {
        self.asleep = self.asleep.saturating_sub(1);
    }
}
