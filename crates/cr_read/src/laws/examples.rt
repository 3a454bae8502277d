//! Problem files by example: which problem some bytes are, or which fault they have.

ghost use Rattle.std.specs.Prelude.{[], ◌∷◌, ◌++◌, Some, pos, negsuc, codes};
ghost use Rattle.cr_model.specs.Examples.{doubles, marked, lettered, com_from};
ghost use Rattle.cr_model.specs.ProblemFiles.{ProblemFile, FirstProblemFault};
ghost use Rattle.cr_model.specs.declared.fault.CountAt.TheVariants as counted;
ghost use Rattle.cr_model.specs.declared.notation.NotationFault.TheVariants as notation;
ghost use Rattle.cr_model.specs.declared.query.Cell.TheVariants as cell;
ghost use Rattle.cr_model.specs.declared.file_fault.ProblemFault.TheVariants as fault;
ghost use Rattle.cr_model.specs.declared.file_fault.Whose.TheVariants as whose;
ghost use Rattle.cr_read.specs.Examples.{stage_line, method_lines, call_lines, query_lines, in_pieces, doubles_with};
ghost use Rattle.cr_read.specs.Examples.{doubles_asked, plainly, two_methods_with, two_methods, eight_methods};

/// Ten lines are Plain Bob Doubles with a bob: in one part, with a call for all methods that replaces as many changes as
/// it has, and with nothing counted.
pub fn a_file_of_ten_lines()
    ensures { ProblemFile (codes "stage = 5\n[[method]]\nletter = \"A\"\nnotation = \"5.1.5.1.5,125\"\n[[call]]\nmark = \"b\"\nnotation = \"145\"\n[query]\nmin = 1\nmax = 120\n") doubles }
{}

/// What may be left out: the same file with its default written out is the same problem, and limits that are left out
/// are 0 and 12,000. A method's name is not kept.
pub fn what_a_file_leaves_out()
    ensures name { ProblemFile (doubles_with (codes "name = \"Plain Bob\"\n") [] []) doubles }
    ensures over { ProblemFile (doubles_with [] (codes "over = 1\n") []) doubles }
    ensures chosen { ProblemFile (doubles_with [] (codes "methods = \"A\"\n") []) doubles }
    ensures parts { ProblemFile (doubles_with [] [] (codes "parts = 1\n")) doubles }
    ensures count { ProblemFile (doubles_with [] [] (codes "[[count]]\nmark = \"b\"\n"))
        (doubles_asked (record plainly { counts = marked 98 0 12000 ∷ [] })) }
    ensures leads { ProblemFile (doubles_with [] [] (codes "[[leads]]\nletter = \"A\"\n"))
        (doubles_asked (record plainly { method_counts = lettered 65 0 12000 ∷ [] })) }
    ensures rows { ProblemFile (doubles_with [] [] (codes "[[rows]]\npattern = \"?4*\"\n"))
        (doubles_asked (record plainly { patterns = record { cells = cell.Any ∷ cell.Bell 4 ∷ cell.Run ∷ []; min = pos 0; max = pos 12000 } ∷ [] })) }
    ensures changes { ProblemFile (doubles_with [] [] (codes "[com]\n"))
        (doubles_asked (record plainly { «com» = Some (com_from 0 12000) })) }
{}

/// The order of the steps: the methods as they stand in the file, and of each its plain lead and then the calls for it,
/// by their marks. A call that names no methods is for all.
pub fn steps_in_order()
    ensures all { ProblemFile (two_methods_with []) two_methods }
    ensures chosen { ProblemFile (two_methods_with (codes "methods = \"AC\"\n")) two_methods }
{}

/// Faults of the text and of its keys: no TOML; a key that is missing, unknown, of the wrong kind, or names what is no
/// method's letter.
pub fn faults_of_keys()
    ensures text { FirstProblemFault (in_pieces (codes "stage =\n") method_lines call_lines query_lines) fault.NotToml }
    ensures missing { FirstProblemFault (in_pieces stage_line method_lines call_lines []) (fault.Key (codes "query")) }
    ensures unknown { FirstProblemFault (codes "speed = 1\n" ++ doubles_with [] [] []) (fault.Key (codes "speed")) }
    ensures kind { FirstProblemFault (in_pieces (codes "stage = \"5\"\n") method_lines call_lines query_lines) (fault.Key (codes "stage")) }
    ensures letters { FirstProblemFault (doubles_with [] (codes "methods = \"B\"\n") []) (fault.Key (codes "call[0].methods")) }
{}

/// Faults of the stage, the methods and the calls.
pub fn faults_of_methods_and_calls()
    ensures stage { FirstProblemFault (in_pieces (codes "stage = 17\n") method_lines call_lines query_lines) (fault.Stage (pos 17)) }
    ensures below { FirstProblemFault (in_pieces (codes "stage = -1\n") method_lines call_lines query_lines) (fault.Stage (negsuc 0)) }
    ensures letter { FirstProblemFault
        (in_pieces stage_line (codes "[[method]]\nletter = \"a\"\nnotation = \"5.1.5.1.5,125\"\n") call_lines query_lines) (fault.Letter 0) }
    ensures again { FirstProblemFault (in_pieces stage_line (method_lines ++ method_lines) call_lines query_lines) (fault.Letter 1) }
    ensures of_method { FirstProblemFault
        (in_pieces stage_line (codes "[[method]]\nletter = \"A\"\nnotation = \"x\"\n") call_lines query_lines)
        (fault.Notation (whose.Method 0) (notation.CrossOnOdd 0)) }
    ensures of_call { FirstProblemFault
        (in_pieces stage_line method_lines (codes "[[call]]\nmark = \"b\"\nnotation = \"146\"\n") query_lines)
        (fault.Notation (whose.Call 0) (notation.Above 2)) }
    ensures over { FirstProblemFault (doubles_with [] (codes "over = 129\n") []) (fault.Over 0) }
    ensures under { FirstProblemFault (doubles_with [] (codes "over = -1\n") []) (fault.Over 0) }
    ensures mark { FirstProblemFault
        (in_pieces stage_line method_lines (codes "[[call]]\nmark = \"p\"\nnotation = \"145\"\n") query_lines) (fault.Mark 0) }
    ensures long { FirstProblemFault (in_pieces stage_line (codes "[[method]]\nletter = \"A\"\nnotation = \"5\"\n")
        (codes "[[call]]\nmark = \"b\"\nnotation = \"5.145\"\n") query_lines) (fault.CallLength 0 0) }
    ensures clash { FirstProblemFault (in_pieces stage_line method_lines (call_lines ++ call_lines) query_lines) (fault.Clash 0 1) }
{}

/// Faults of the problem that a file's methods and calls make.
pub fn faults_of_queries()
    ensures steps { FirstProblemFault eight_methods (fault.Steps 32) }
    ensures range { FirstProblemFault (in_pieces stage_line method_lines call_lines (codes "[query]\nmin = 0\nmax = 120\n"))
        (fault.Range (pos 0) (pos 120)) }
    ensures deep { FirstProblemFault (in_pieces (codes "stage = 8\n") (codes "[[method]]\nletter = \"A\"\nnotation = \"x\"\n")
        (codes "[[call]]\nmark = \"b\"\nnotation = \"18\"\n") (codes "[query]\nmin = 1\nmax = 1025\n")) (fault.Deep 1025) }
    ensures parts { FirstProblemFault (doubles_with [] [] (codes "parts = 0\n")) (fault.Parts (pos 0)) }
    ensures count { FirstProblemFault (doubles_with [] [] (codes "[[count]]\nmark = \"z\"\n")) (fault.Count (counted.Mark 0)) }
    ensures leads { FirstProblemFault (doubles_with [] [] (codes "[[leads]]\nletter = \"B\"\n")) (fault.Count (counted.Method 0)) }
    ensures rows { FirstProblemFault (doubles_with [] [] (codes "[[rows]]\npattern = \"1425\"\n")) (fault.Pattern 0) }
    ensures changes { FirstProblemFault (doubles_with [] [] (codes "[com]\nmin = 5\nmax = 4\n")) fault.Com }
{}
