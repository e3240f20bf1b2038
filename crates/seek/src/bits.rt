// Words with a bit for each of 64 tasks. A task's number counts mod 64.
ghost use Rattle.std.specs.Prelude.{◌≡◌, ◌%◌};
ghost use Rattle.objects.specs.Objects.{bit};
ghost use Rattle.machine.specs.Bits.{with_bit, without_bit, ones, common, lowest};

// Whether the task's bit is set.
pub fn has_bit(word: u64, task: u64) -> bool
    ensures { result ≡ bit word (task % 64) }
{
    (word >> (task % 64)) % 2 == 1
}

// The word with the task's bit too.
pub fn with_bit(word: u64, task: u64) -> u64
    ensures { result ≡ with_bit word (task % 64) }
{
    word | (1 << (task % 64))
}

// The word without the task's bit.
pub fn without_bit(word: u64, task: u64) -> u64
    ensures { result ≡ without_bit word (task % 64) }
{
    word & !(1 << (task % 64))
}

// How many tasks have their bit set.
pub fn ones_of(word: u64) -> u64
    ensures { result ≡ ones word }
{
    u64::from(word.count_ones())
}

// How many tasks have their bit set in both words.
pub fn common_of(word: u64, other: u64) -> u64
    ensures { result ≡ common word other }
{
    u64::from((word & other).count_ones())
}

// The lowest task whose bit is set, and 64 where none is: `lowest` is a number of every word.
pub fn lowest_of(word: u64) -> u64
    ensures { result ≡ lowest word }
{
    u64::from(word.trailing_zeros())
}
