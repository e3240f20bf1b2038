// The 256 objects as four groups of 64: where two transactions clash in a group, the lowest object of four groups, and how many they hold.
#![tactic(auto)]

ghost use Rattle.std.specs.Prelude.{◌≡◌};
ghost use Rattle.objects.specs.Objects.{contested_word, group_contested, groups_at, lowest_object, how_many};

// The four groups of a set of objects: object b is bit b mod 64 of word ⌊b/64⌋.
pub type Groups = [u64; 4];

// The objects of one group on which two transactions clash, from their words of that group: reads and writes of the first, then of the second.
pub fn contested_word(reads: u64, writes: u64, other_reads: u64, other_writes: u64) -> u64
    ensures { result ≡ contested_word reads writes other_reads other_writes }
{
    (writes & (other_reads | other_writes)) | (reads & other_writes)
}

// Whether the group has an object on which they clash.
pub fn group_contested(reads: u64, writes: u64, other_reads: u64, other_writes: u64) -> bool
    ensures { result ≡ group_contested reads writes other_reads other_writes }
{
    contested_word(reads, writes, other_reads, other_writes) != 0
}

// The lowest object of four groups, and 0 where they hold none.
pub fn lowest_object(words: Groups) -> u8
    ensures { result ≡ lowest_object (groups_at words 0) }
{
    for (g, word) in words.iter().enumerate() {
        if *word != 0 {
            return (g * 64) as u8 + word.trailing_zeros() as u8;
        }
    }
    0
}

// How many objects four groups hold.
pub fn how_many(words: Groups) -> u16
    ensures { result ≡ how_many (groups_at words 0) }
{
    words.iter().map(|word| word.count_ones()).sum::<u32>() as u16
}
