//! Laws of what a status says: its number, and its line on standard error. Each is the contract of a function that does
//! nothing.

ghost use Rattle.std.specs.Prelude.{◌≡◌, [], ◌∷◌, ◌++◌, map, pos, negsuc, codes};
ghost use Rattle.cr_audit.specs.declared.fault.AuditFault.TheVariants as audit;
ghost use Rattle.cr_model.specs.declared.fault.CountAt.TheVariants as counted;
ghost use Rattle.cr_model.specs.declared.notation.NotationFault.TheVariants as notation;
ghost use Rattle.cr_model.specs.declared.file_fault.Whose.TheVariants as owner;
ghost use Rattle.cr_model.specs.declared.file_fault.ProblemFault.TheVariants as fault;
ghost use Rattle.cr_shard.specs.declared.fault.JoinFault.TheVariants as join;
ghost use Rattle.cr_store.specs.declared.fault.CheckFault.TheVariants as check;
ghost use Rattle.cr_trail.specs.declared.last.TrailFault.TheVariants as trail;
ghost use Rattle.cr_words.specs.declared.fault.WordsFault.TheVariants as wrong;
ghost use Rattle.cr_top.specs.declared.status.Status.TheVariants as ended;
ghost use Rattle.cr_top.specs.Codes.{code_of};
ghost use Rattle.cr_top.specs.Lines.{note_line};

/// The number of each status.
pub fn statuses_have_their_numbers()
    ensures { map code_of (ended.Finished ∷ ended.Words wrong.Line ∷ ended.Stopped 3 ∷ ended.Problem fault.NotToml
        ∷ ended.Checkpoint (check.Form 1) ∷ ended.ReadFault ∷ ended.WriteFault ∷ ended.NoMemory ∷ ended.TooLong
        ∷ ended.Trail trail.Nothing ∷ ended.Join (join.Blocks 0) ∷ ended.Audit (audit.Node 5) ∷ ended.NotProblem ∷ [])
        ≡ 0 ∷ 2 ∷ 3 ∷ 4 ∷ 5 ∷ 6 ∷ 7 ∷ 8 ∷ 9 ∷ 10 ∷ 11 ∷ 12 ∷ 13 ∷ [] }
{}

/// The line of each status, and none where the run finished.
pub fn statuses_have_their_lines()
    ensures finished { note_line ended.Finished ≡ [] }
    ensures words { note_line (ended.Words wrong.Workers) ≡ codes "ringsearch: words 2 Workers\n" }
    ensures stopped { map note_line (ended.Stopped 0 ∷ ended.Stopped 7 ∷ ended.Stopped 9223372036854775807 ∷ [])
        ≡ codes "ringsearch: stopped after 0 turns\n" ∷ codes "ringsearch: stopped after 7 turns\n"
        ∷ codes "ringsearch: stopped after 9223372036854775807 turns\n" ∷ [] }
    ensures problem { note_line (ended.Problem (fault.Notation (owner.Method 0) (notation.CrossOnOdd 0)))
        ≡ codes "ringsearch: problem 5 Notation method 0 CrossOnOdd 0\n" }
    ensures checkpoint { note_line (ended.Checkpoint (check.Overlap 17 18))
        ≡ codes "ringsearch: checkpoint 7 Overlap 17 18\n" }
    ensures read { note_line ended.ReadFault ≡ codes "ringsearch: read failed\n" }
    ensures write { note_line ended.WriteFault ≡ codes "ringsearch: write failed\n" }
    ensures memory { note_line ended.NoMemory ≡ codes "ringsearch: no memory\n" }
    ensures long { note_line ended.TooLong ≡ codes "ringsearch: input too long\n" }
    ensures trail { map (λ f. note_line (ended.Trail f)) (trail.Form 6 ∷ trail.Nothing ∷ [])
        ≡ codes "ringsearch: trail 1 Form 6\n" ∷ codes "ringsearch: trail 2 Nothing\n" ∷ [] }
    ensures join { note_line (ended.Join (join.Overlap 0 1)) ≡ codes "ringsearch: join 5 Overlap 0 1\n" }
    ensures audit { map (λ f. note_line (ended.Audit f)) (audit.Form 117 ∷ audit.Line 1 ∷ audit.Node 5 ∷ audit.Verdict 5
        ∷ audit.Book 0 ∷ audit.NoMemory ∷ [])
        ≡ codes "ringsearch: audit 1 Form 117\n" ∷ codes "ringsearch: audit 2 Line 1\n"
        ∷ codes "ringsearch: audit 3 Node 5\n" ∷ codes "ringsearch: audit 4 Verdict 5\n"
        ∷ codes "ringsearch: audit 5 Book 0\n" ∷ codes "ringsearch: audit 6 NoMemory\n" ∷ [] }
    ensures not_problem { note_line ended.NotProblem ≡ codes "ringsearch: not a problem\n" }
{}

/// The line of each fault of the command line.
pub fn faults_of_words_have_their_lines()
    ensures { map (λ f. note_line (ended.Words f)) (wrong.Line ∷ wrong.Workers ∷ wrong.Turns ∷ wrong.Number ∷ wrong.Mode
        ∷ wrong.Mixed ∷ wrong.NoMemory ∷ wrong.Every ∷ wrong.Into ∷ [])
        ≡ codes "ringsearch: words 1 Line\n" ∷ codes "ringsearch: words 2 Workers\n"
        ∷ codes "ringsearch: words 3 Turns\n" ∷ codes "ringsearch: words 4 Number\n"
        ∷ codes "ringsearch: words 5 Mode\n" ∷ codes "ringsearch: words 6 Mixed\n"
        ∷ codes "ringsearch: words 7 NoMemory\n" ∷ codes "ringsearch: words 8 Every\n"
        ∷ codes "ringsearch: words 9 Into\n" ∷ [] }
{}

/// The line of each fault of a problem, with its details in their order: the indexes, the numbers, which may be negative,
/// and the path of a key, in which a byte outside 33 to 126 is printed as `?`.
pub fn faults_of_problems_have_their_lines()
    ensures texts { map (λ f. note_line (ended.Problem f)) (fault.NotToml ∷ fault.Key (codes "method[0].letter")
        ∷ fault.Key ((9 ∷ 32 ∷ 33 ∷ 126 ∷ 127 ∷ 255 ∷ []) ++ codes "speed limit") ∷ fault.NoMemory ∷ [])
        ≡ codes "ringsearch: problem 1 NotToml\n" ∷ codes "ringsearch: problem 2 Key method[0].letter\n"
        ∷ codes "ringsearch: problem 2 Key ??!~??speed?limit\n" ∷ codes "ringsearch: problem 16 NoMemory\n" ∷ [] }
    ensures numbers { map (λ f. note_line (ended.Problem f)) (fault.Stage (pos 17) ∷ fault.Stage (negsuc 0)
        ∷ fault.Steps 32 ∷ fault.Range (pos 0) (pos 120) ∷ fault.Range (negsuc 9) (negsuc 9223372036854775807)
        ∷ fault.Deep 1025 ∷ fault.Parts (pos 0) ∷ fault.Parts (negsuc 64) ∷ fault.Com ∷ [])
        ≡ codes "ringsearch: problem 3 Stage 17\n" ∷ codes "ringsearch: problem 3 Stage -1\n"
        ∷ codes "ringsearch: problem 10 Steps 32\n" ∷ codes "ringsearch: problem 11 Range 0 120\n"
        ∷ codes "ringsearch: problem 11 Range -10 -9223372036854775808\n" ∷ codes "ringsearch: problem 12 Deep 1025\n"
        ∷ codes "ringsearch: problem 13 Parts 0\n" ∷ codes "ringsearch: problem 13 Parts -65\n"
        ∷ codes "ringsearch: problem 17 Com\n" ∷ [] }
    ensures indexes { map (λ f. note_line (ended.Problem f)) (fault.Letter 1 ∷ fault.Over 2 ∷ fault.Mark 3
        ∷ fault.CallLength 4 5 ∷ fault.Clash 6 7 ∷ fault.Count (counted.Mark 8) ∷ fault.Count (counted.Method 9)
        ∷ fault.Pattern 10 ∷ [])
        ≡ codes "ringsearch: problem 4 Letter 1\n" ∷ codes "ringsearch: problem 6 Over 2\n"
        ∷ codes "ringsearch: problem 7 Mark 3\n" ∷ codes "ringsearch: problem 8 CallLength 4 5\n"
        ∷ codes "ringsearch: problem 9 Clash 6 7\n" ∷ codes "ringsearch: problem 14 Count count 8\n"
        ∷ codes "ringsearch: problem 14 Count leads 9\n" ∷ codes "ringsearch: problem 15 Pattern 10\n" ∷ [] }
{}

/// The line of each fault of a notation, with its place, behind the method or the call whose notation it is.
pub fn faults_of_notations_have_their_lines()
    ensures methods { map (λ f. note_line (ended.Problem (fault.Notation (owner.Method 1) f))) (notation.Symbol 0
        ∷ notation.Above 1 ∷ notation.Order 2 ∷ notation.Gap 3 ∷ notation.CrossOnOdd 4 ∷ [])
        ≡ codes "ringsearch: problem 5 Notation method 1 Symbol 0\n"
        ∷ codes "ringsearch: problem 5 Notation method 1 Above 1\n"
        ∷ codes "ringsearch: problem 5 Notation method 1 Order 2\n"
        ∷ codes "ringsearch: problem 5 Notation method 1 Gap 3\n"
        ∷ codes "ringsearch: problem 5 Notation method 1 CrossOnOdd 4\n" ∷ [] }
    ensures calls { map (λ f. note_line (ended.Problem (fault.Notation (owner.Call 22) f))) (notation.Dot 5
        ∷ notation.EmptyBlock 6 ∷ notation.SecondComma 7 ∷ notation.Long 1000 ∷ notation.NoMemory ∷ [])
        ≡ codes "ringsearch: problem 5 Notation call 22 Dot 5\n"
        ∷ codes "ringsearch: problem 5 Notation call 22 EmptyBlock 6\n"
        ∷ codes "ringsearch: problem 5 Notation call 22 SecondComma 7\n"
        ∷ codes "ringsearch: problem 5 Notation call 22 Long 1000\n"
        ∷ codes "ringsearch: problem 5 Notation call 22 NoMemory\n" ∷ [] }
{}

/// The line of each fault of a checkpoint, with its lines in their order. Of a fault of its problem it has the number, the
/// name and the details.
pub fn faults_of_checkpoints_have_their_lines()
    ensures { map (λ f. note_line (ended.Checkpoint f)) (check.Form 1 ∷ check.Problem (fault.Key (codes "query"))
        ∷ check.Problem (fault.Range (negsuc 0) (pos 120)) ∷ check.Calling 16 ∷ check.NodeLong 18 ∷ check.NotKept 15
        ∷ check.FoundOrder 17 ∷ check.Overlap 17 18 ∷ check.NoMemory ∷ [])
        ≡ codes "ringsearch: checkpoint 1 Form 1\n" ∷ codes "ringsearch: checkpoint 2 Problem 2 Key query\n"
        ∷ codes "ringsearch: checkpoint 2 Problem 11 Range -1 120\n" ∷ codes "ringsearch: checkpoint 3 Calling 16\n"
        ∷ codes "ringsearch: checkpoint 4 NodeLong 18\n" ∷ codes "ringsearch: checkpoint 5 NotKept 15\n"
        ∷ codes "ringsearch: checkpoint 6 FoundOrder 17\n" ∷ codes "ringsearch: checkpoint 7 Overlap 17 18\n"
        ∷ codes "ringsearch: checkpoint 8 NoMemory\n" ∷ [] }
{}

/// The line of each fault of a join, with its numbers in their order. Of the fault of a body it has the number, the name and
/// the details, and so of the fault of its problem.
pub fn faults_of_joins_have_their_lines()
    ensures { map (λ f. note_line (ended.Join f)) (join.Form 399 ∷ join.Blocks 0 ∷ join.Blocks 1025
        ∷ join.Check 12 (check.Form 1) ∷ join.Check 0 (check.Overlap 17 18) ∷ join.Check 3 (check.Problem (fault.Stage (pos 17)))
        ∷ join.Check 1023 (check.Problem (fault.Key (codes "query"))) ∷ join.OtherProblem 1 8 ∷ join.Overlap 0 1
        ∷ join.NoMemory ∷ [])
        ≡ codes "ringsearch: join 1 Form 399\n" ∷ codes "ringsearch: join 2 Blocks 0\n"
        ∷ codes "ringsearch: join 2 Blocks 1025\n" ∷ codes "ringsearch: join 3 Check 12 1 Form 1\n"
        ∷ codes "ringsearch: join 3 Check 0 7 Overlap 17 18\n" ∷ codes "ringsearch: join 3 Check 3 2 Problem 3 Stage 17\n"
        ∷ codes "ringsearch: join 3 Check 1023 2 Problem 2 Key query\n" ∷ codes "ringsearch: join 4 OtherProblem 1 8\n"
        ∷ codes "ringsearch: join 5 Overlap 0 1\n" ∷ codes "ringsearch: join 6 NoMemory\n" ∷ [] }
{}
