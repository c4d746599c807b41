// Calls of the queue, one after another.
ghost use Rattle.std.specs.Prelude.{⊤};

use queue::compare::Exact;
use queue::entry::Entry;
use queue::key::Key;
use queue::queue::Queue;

// One call: 0 puts, 1 withdraws, 2 looks at the smallest, 3 takes it.
#[repr(C)]
#[derive(Clone, Copy)]
pub struct Step {
    pub kind: u32,
    pub number: u32,
    pub first: u64,
    pub second: u32,
}

// What a call answered: 0 for nothing, 1 with a number and a key, or the number of a refusal.
#[repr(C)]
#[derive(Clone, Copy)]
pub struct Answer {
    pub code: u32,
    pub number: u32,
    pub first: u64,
    pub second: u32,
}

impl Answer {
    fn of_code(code: u32) -> Answer {
        Answer {
            code,
            number: 0,
            first: 0,
            second: 0,
        }
    }
}

impl From<Option<(u32, Key)>> for Answer {
    ghost from_gives = { λ _ _. ⊤ };

    fn from(item: Option<(u32, Key)>) -> Answer {
        match item {
            Some((number, key)) => Answer {
                code: 1,
                number,
                first: key.first,
                second: key.second,
            },
            None => Answer::of_code(0),
        }
    }
}

fn carry_out(q: &mut Queue<Key, Exact>, s: &Step) -> Answer {
    let key = Key {
        first: s.first,
        second: s.second,
    };
    // The kinds are numbers, since they come through the C interface.
    match s.kind {
        0 => Answer::of_code(
            q.put(s.number, key)
                .map_or_else(|refusal| refusal.number(), |_| 0),
        ),
        1 => Answer::from(q.withdraw(s.number).map(|key| (s.number, key))),
        2 => Answer::from(q.smallest()),
        _ => Answer::from(q.take_smallest()),
    }
}

// The most entries that a run can have.
const MOST: usize = 16_384;

// Carries out the steps on an empty queue of so many entries, and writes what each answered.
#[unsafe(no_mangle)]
pub extern "C" fn queue_run(size: usize, steps: &[Step], answers: &mut [Answer]) {
    let mut table = [Entry::free(); MOST];
    let entries = &mut table[0..size.min(MOST)];
    let mut q = Queue::empty_exact(entries);
    for (s, a) in steps.iter().zip(answers.iter_mut()) {
        *a = carry_out(&mut q, s);
    }
}

// The same, with a sum over the answers in place of them, to be timed.
#[unsafe(no_mangle)]
pub extern "C" fn queue_sum(size: usize, steps: &[Step]) -> u64 {
    let mut table = [Entry::free(); MOST];
    let entries = &mut table[0..size.min(MOST)];
    let mut q = Queue::empty_exact(entries);
    let mut sum: u64 = 0;
    for s in steps {
        let a = carry_out(&mut q, s);
        sum = sum.wrapping_mul(31).wrapping_add(
            a.first ^ u64::from(a.second) ^ u64::from(a.number) ^ u64::from(a.code),
        );
    }
    sum
}
