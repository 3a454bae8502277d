//! Laws of words and wishes. Each is the contract of a function that does nothing.

ghost use Rattle.std.specs.Prelude.{◌≡◌, ◌⊎◌, true, not, Some, None, List, [], ◌∷◌, ◌++◌, map, codes};
ghost use Rattle.std.specs.List.{list_all};
ghost use Rattle.clap.specs.Words.{Text};
ghost use Rattle.cr_words.specs.Commands.{are_taken};
ghost use Rattle.cr_words.specs.Examples.{line, accent, is_line_taken, line_faults};
ghost use Rattle.cr_words.specs.Readings.{ReadsAs, IsAccepted, IsWordsFaultOf};
ghost use Rattle.cr_words.specs.declared.fault.WordsFault.TheVariants as fault;
ghost use Rattle.cr_words.specs.declared.wish.Mode.TheVariants as mode;

use crate::{Wish, WordsFault};

/// Words read as one wish at most.
pub fn words_read_as_one_wish()
    ensures { (words : List Text) (one other : Wish) → ReadsAs words one → ReadsAs words other → one ≡ other }
{}

/// Words are either accepted as a wish or have one fault.
pub fn words_are_accepted_or_have_a_fault()
    ensures some { (words : List Text)
        → ((wish : Wish) × IsAccepted words wish) ⊎ ((fault : WordsFault) × IsWordsFaultOf words fault) }
    ensures apart { (words : List Text) (wish : Wish) (fault : WordsFault)
        → IsAccepted words wish → IsWordsFaultOf words fault → ⊥ }
    ensures one { (words : List Text) (one other : WordsFault)
        → IsWordsFaultOf words one → IsWordsFaultOf words other → one ≡ other }
{}

/// No word at all is taken, and so are values of any kind behind a name or `=`, and a lone `--`. An unknown option, one
/// given twice or without its value, part of a name, a stray word, and requests for help and version are not.
pub fn lines_are_taken_or_not()
    ensures nothing { are_taken [] ≡ true }
    ensures taken { list_all is_line_taken (codes "--workers 3" ∷ codes "--workers=3" ∷ codes "--turns=5"
        ∷ codes "--turns 5" ∷ codes "--workers=" ∷ codes "--workers " ∷ codes "--do find" ∷ codes "--turns=-1"
        ∷ (codes "--number " ++ accent) ∷ codes "--" ∷ codes "--do make --number 7 --workers 64"
        ∷ codes "--every 3" ∷ codes "--every=" ∷ codes "--do last --every 3 --turns 5" ∷ codes "--into 3"
        ∷ codes "--into=" ∷ codes "--do cut --into=2" ∷ codes "--do join --into 2" ∷ codes "--do log"
        ∷ codes "--do=audit" ∷ codes "--do audit --workers 2" ∷ []) ≡ true }
    ensures not_taken { list_all (λ text. not (is_line_taken text)) (codes "--bells" ∷ codes "--workers"
        ∷ codes "--workers --turns" ∷ codes "--turns 1 --turns 2" ∷ codes "--do=make --do=make" ∷ codes "--turns -1"
        ∷ codes "--work 3" ∷ codes "find" ∷ codes "" ∷ accent ∷ codes "-- 5" ∷ codes "-t 5" ∷ codes "--help"
        ∷ codes "-h" ∷ codes "--version" ∷ codes "help" ∷ codes "--workers 3 " ∷ codes "--every"
        ∷ codes "--every 1 --every 1" ∷ codes "--every -1" ∷ codes "last" ∷ codes "--into"
        ∷ codes "--into 2 --into 2" ∷ codes "--into -1" ∷ codes "join"
        ∷ codes "log" ∷ codes "--audit" ∷ []) ≡ true }
{}

/// Lines and their wishes, at the edges of the numbers. Leading zeros are taken.
pub fn lines_read_as_wishes()
    ensures nothing { ReadsAs [] (record { workers = 1; turns = None; mode = mode.Search }) }
    ensures after_equals { ReadsAs (line (codes "--turns=5"))
        (record { workers = 1; turns = Some 5; mode = mode.Search }) }
    ensures after_a_space { ReadsAs (line (codes "--turns 5"))
        (record { workers = 1; turns = Some 5; mode = mode.Search }) }
    ensures zeros { ReadsAs (line (codes "--turns 007 --workers 00064"))
        (record { workers = 64; turns = Some 7; mode = mode.Search }) }
    ensures most_turns { ReadsAs (line (codes "--turns 9223372036854775807"))
        (record { workers = 1; turns = Some 9223372036854775807; mode = mode.Search }) }
    ensures no_turns { ReadsAs (line (codes "--turns 0"))
        (record { workers = 1; turns = Some 0; mode = mode.Search }) }
    ensures made { ReadsAs (line (codes "--do make"))
        (record { workers = 1; turns = None; mode = mode.Make 0 }) }
    ensures most_made { ReadsAs (line (codes "--number 4294967295 --do make --workers=1"))
        (record { workers = 1; turns = None; mode = mode.Make 4294967295 }) }
    ensures trail { ReadsAs (line (codes "--every 1 --workers 2"))
        (record { workers = 2; turns = None; mode = mode.Trail 1 }) }
    ensures most_every { ReadsAs (line (codes "--do search --every=9223372036854775807"))
        (record { workers = 1; turns = None; mode = mode.Trail 9223372036854775807 }) }
    ensures last { ReadsAs (line (codes "--do last"))
        (record { workers = 1; turns = None; mode = mode.Last }) }
    ensures cut { ReadsAs (line (codes "--do cut"))
        (record { workers = 1; turns = None; mode = mode.Cut 1 }) }
    ensures cut_into { ReadsAs (line (codes "--into 007 --do cut"))
        (record { workers = 1; turns = None; mode = mode.Cut 7 }) }
    ensures most_into { ReadsAs (line (codes "--do=cut --into=1024"))
        (record { workers = 1; turns = None; mode = mode.Cut 1024 }) }
    ensures join { ReadsAs (line (codes "--do join"))
        (record { workers = 1; turns = None; mode = mode.Join }) }
    ensures log { ReadsAs (line (codes "--do log"))
        (record { workers = 1; turns = None; mode = mode.Log }) }
    ensures audit { ReadsAs (line (codes "--do=audit"))
        (record { workers = 1; turns = None; mode = mode.Audit }) }
    ensures lone { ReadsAs (line (codes "--")) (record { workers = 1; turns = None; mode = mode.Search }) }
{}

/// Lines and all that is wrong with what they assign, in the order in which it is looked for. A number has one to
/// nineteen digits and no sign. Each mode is asked for with each option, which it uses or does not.
pub fn lines_have_faults()
    ensures workers { map line_faults (codes "--workers 0" ∷ codes "--workers 65" ∷ codes "--workers="
        ∷ codes "--workers +5" ∷ [])
        ≡ (fault.Workers ∷ []) ∷ (fault.Workers ∷ []) ∷ (fault.Workers ∷ []) ∷ (fault.Workers ∷ []) ∷ [] }
    ensures turns { map line_faults (codes "--turns 9223372036854775808" ∷ codes "--turns 00000000000000000005"
        ∷ codes "--turns=" ∷ (codes "--turns " ++ accent) ∷ [])
        ≡ (fault.Turns ∷ []) ∷ (fault.Turns ∷ []) ∷ (fault.Turns ∷ []) ∷ (fault.Turns ∷ []) ∷ [] }
    ensures modes { map line_faults (codes "--do find" ∷ codes "--do=" ∷ codes "--do Search"
        ∷ codes "--do find --number 1" ∷ codes "--do logs" ∷ codes "--do Audit" ∷ [])
        ≡ (fault.Mode ∷ []) ∷ (fault.Mode ∷ []) ∷ (fault.Mode ∷ []) ∷ (fault.Mode ∷ []) ∷ (fault.Mode ∷ [])
        ∷ (fault.Mode ∷ []) ∷ [] }
    ensures every { map line_faults (codes "--every 0" ∷ codes "--every 9223372036854775808" ∷ codes "--every="
        ∷ codes "--every +5" ∷ [])
        ≡ (fault.Every ∷ []) ∷ (fault.Every ∷ []) ∷ (fault.Every ∷ []) ∷ (fault.Every ∷ []) ∷ [] }
    ensures into { map line_faults (codes "--do cut --into 0" ∷ codes "--do cut --into 1025" ∷ codes "--do cut --into="
        ∷ codes "--do cut --into +5" ∷ [])
        ≡ (fault.Into ∷ []) ∷ (fault.Into ∷ []) ∷ (fault.Into ∷ []) ∷ (fault.Into ∷ []) ∷ [] }
    ensures mixed { map line_faults (codes "--do make --turns 5" ∷ codes "--number 1" ∷ codes "--number 0"
        ∷ codes "--every 5 --turns 5" ∷ codes "--do last --every 3" ∷ codes "--do make --every 3" ∷ [])
        ≡ (fault.Mixed ∷ []) ∷ (fault.Mixed ∷ []) ∷ (fault.Mixed ∷ []) ∷ (fault.Mixed ∷ []) ∷ (fault.Mixed ∷ [])
        ∷ (fault.Mixed ∷ []) ∷ [] }
    ensures searched { map line_faults (codes "--do search --workers 1" ∷ codes "--do search --turns 1"
        ∷ codes "--do search --every 1" ∷ codes "--do search --number 1" ∷ [])
        ≡ [] ∷ [] ∷ [] ∷ (fault.Mixed ∷ []) ∷ [] }
    ensures made { map line_faults (codes "--do make --workers 1" ∷ codes "--do make --turns 1"
        ∷ codes "--do make --every 1" ∷ codes "--do make --number 1" ∷ [])
        ≡ [] ∷ (fault.Mixed ∷ []) ∷ (fault.Mixed ∷ []) ∷ [] ∷ [] }
    ensures last { map line_faults (codes "--do last --workers 1" ∷ codes "--do last --turns 1"
        ∷ codes "--do last --every 1" ∷ codes "--do last --number 1" ∷ codes "--do last" ∷ [])
        ≡ (fault.Mixed ∷ []) ∷ (fault.Mixed ∷ []) ∷ (fault.Mixed ∷ []) ∷ (fault.Mixed ∷ []) ∷ [] ∷ [] }
    ensures cut { map line_faults (codes "--do cut --workers 1" ∷ codes "--do cut --turns 1"
        ∷ codes "--do cut --every 1" ∷ codes "--do cut --number 1" ∷ codes "--do cut --into 1" ∷ codes "--do cut" ∷ [])
        ≡ (fault.Mixed ∷ []) ∷ (fault.Mixed ∷ []) ∷ (fault.Mixed ∷ []) ∷ (fault.Mixed ∷ []) ∷ [] ∷ [] ∷ [] }
    ensures join { map line_faults (codes "--do join --workers 1" ∷ codes "--do join --turns 1"
        ∷ codes "--do join --every 1" ∷ codes "--do join --number 1" ∷ codes "--do join --into 1" ∷ codes "--do join" ∷ [])
        ≡ (fault.Mixed ∷ []) ∷ (fault.Mixed ∷ []) ∷ (fault.Mixed ∷ []) ∷ (fault.Mixed ∷ []) ∷ (fault.Mixed ∷ []) ∷ [] ∷ [] }
    ensures log { map line_faults (codes "--do log --workers 1" ∷ codes "--do log --turns 1"
        ∷ codes "--do log --every 1" ∷ codes "--do log --number 1" ∷ codes "--do log --into 1" ∷ codes "--do log" ∷ [])
        ≡ (fault.Mixed ∷ []) ∷ (fault.Mixed ∷ []) ∷ (fault.Mixed ∷ []) ∷ (fault.Mixed ∷ []) ∷ (fault.Mixed ∷ []) ∷ [] ∷ [] }
    ensures audit { map line_faults (codes "--do audit --workers 1" ∷ codes "--do audit --turns 1"
        ∷ codes "--do audit --every 1" ∷ codes "--do audit --number 1" ∷ codes "--do audit --into 1" ∷ codes "--do audit" ∷ [])
        ≡ (fault.Mixed ∷ []) ∷ (fault.Mixed ∷ []) ∷ (fault.Mixed ∷ []) ∷ (fault.Mixed ∷ []) ∷ (fault.Mixed ∷ []) ∷ [] ∷ [] }
    ensures not_cut { map line_faults (codes "--into 1" ∷ codes "--do search --into 2" ∷ codes "--do make --into 2"
        ∷ codes "--do last --into 2" ∷ [])
        ≡ (fault.Mixed ∷ []) ∷ (fault.Mixed ∷ []) ∷ (fault.Mixed ∷ []) ∷ (fault.Mixed ∷ []) ∷ [] }
    ensures with_into { map line_faults (codes "--into 0" ∷ codes "--do find --into 0" ∷ codes "--every 0 --do cut --into 0"
        ∷ codes "--do cut --workers 0 --into 0" ∷ codes "--do join --into 1025" ∷ codes "--do last --turns x --into x" ∷ [])
        ≡ (fault.Into ∷ fault.Mixed ∷ []) ∷ (fault.Mode ∷ fault.Into ∷ [])
        ∷ (fault.Every ∷ fault.Into ∷ fault.Mixed ∷ []) ∷ (fault.Workers ∷ fault.Into ∷ fault.Mixed ∷ [])
        ∷ (fault.Into ∷ fault.Mixed ∷ []) ∷ (fault.Turns ∷ fault.Into ∷ fault.Mixed ∷ []) ∷ [] }
    ensures many { map line_faults (codes "--do make --number 4294967296" ∷ codes "--number x"
        ∷ codes "--do make --turns x" ∷ codes "--do z --number y --turns x --workers w" ∷ codes "--every 0 --turns 5"
        ∷ codes "--do last --every 0" ∷ codes "--do find --every 0" ∷ codes "--do z --every 5 --turns 5" ∷ [])
        ≡ (fault.Number ∷ []) ∷ (fault.Number ∷ fault.Mixed ∷ []) ∷ (fault.Turns ∷ fault.Mixed ∷ [])
        ∷ (fault.Workers ∷ fault.Turns ∷ fault.Number ∷ fault.Mode ∷ []) ∷ (fault.Every ∷ fault.Mixed ∷ [])
        ∷ (fault.Every ∷ fault.Mixed ∷ []) ∷ (fault.Mode ∷ fault.Every ∷ []) ∷ (fault.Mode ∷ fault.Mixed ∷ []) ∷ [] }
{}
