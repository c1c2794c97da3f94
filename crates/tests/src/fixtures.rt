// What the examples begin with: cells in words, and memory for five books.

use base::Stamp;
use lines::access::{ReadLine, WriteLine};
use lines::note::{Note, Order};
use lines::row::{Row, State};
use lines::transaction::Transaction;
use policy::Policy;
use register::Register;
use service::BookMemory;
use store::Store;

/// The words of a cell of a sparse store: key 0, value 0, both stamps 0.
pub const K: u32 = 0x8000_0000;

pub const V: u32 = 0x9000_0000;

pub const W: u32 = 0xE000_0000;

pub const R: u32 = 0xF000_0000;

/// Keys 0 and 4 of ground 0, and key 8,192 of ground 1; all three cells are zero.
pub const THREE_CELLS: [u32; 12] = [K, V, W, R, K + 4, V, W, R, K + 0x2000, V, W, R];

/// The first key of each ground, all eight cells zero.
pub fn eight_grounds() -> [u32; 32] {
    let mut words = [0; 32];
    for ground in 0..8_u32 {
        let line = 4 * ground as usize;
        words[line] = K + 0x2000 * ground;
        words[line + 1] = V;
        words[line + 2] = W;
        words[line + 3] = R;
    }
    words
}

/// Memory for five books, with so many lines for each.
#[derive(Drop)]
pub struct Memory<
    const TRANSACTIONS: usize,
    const ROWS: usize,
    const READS: usize,
    const WRITES: usize,
    const NOTES: usize,
> {
    pub transactions: [Transaction; TRANSACTIONS],
    pub rows: [Row; ROWS],
    pub reads: [ReadLine; READS],
    pub writes: [WriteLine; WRITES],
    pub notes: [Note; NOTES],
}

impl<
    const TRANSACTIONS: usize,
    const ROWS: usize,
    const READS: usize,
    const WRITES: usize,
    const NOTES: usize,
> Memory<TRANSACTIONS, ROWS, READS, WRITES, NOTES> {
    /// Lines that no book uses yet.
    pub fn blank() -> Self {
        Memory {
            transactions: [Transaction {
                number: 0,
                decision: None,
            }; TRANSACTIONS],
            rows: [Row {
                transaction: 0,
                ground: 0,
                state: State::Running,
                lower: 0,
                upper: 0,
            }; ROWS],
            reads: [ReadLine {
                transaction: 0,
                key: 0,
                value: 0,
                seen: Stamp::in_word(0),
            }; READS],
            writes: [WriteLine {
                transaction: 0,
                key: 0,
                value: 0,
            }; WRITES],
            notes: [Note {
                key: 0,
                first: 0,
                second: 0,
                order: Order::Before,
            }; NOTES],
        }
    }

    /// The memory as a service takes it.
    pub fn books(&mut self) -> BookMemory<'_> {
        BookMemory {
            transactions: &mut self.transactions,
            rows: &mut self.rows,
            reads: &mut self.reads,
            writes: &mut self.writes,
            notes: &mut self.notes,
        }
    }

    /// A new register in this memory.
    pub fn register<'a, S: Store, P: Policy>(
        &'a mut self,
        store: S,
        policy: P,
    ) -> Register<'a, S, P> {
        Register::new(
            store,
            policy,
            &mut self.transactions,
            &mut self.rows,
            &mut self.reads,
            &mut self.writes,
            &mut self.notes,
        )
    }
}
