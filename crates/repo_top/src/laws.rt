ghost use Rattle.std.specs.Prelude.{◌≡◌, [], ◌∷◌, ◌++◌, None, Some, codes};
ghost use Rattle.script_story.specs.declared.ending.Ending.TheVariants.{Done, Refused};
ghost use Rattle.script_story.specs.Evaluation.{RunEnvironment};
ghost use Rattle.script_story.specs.ScriptRun.{plain_run};
ghost use Rattle.repo_top.specs.Forms.{asked_of, asked_run};
ghost use Rattle.repo_top.specs.Inspection.{inspect_run};

/// The runs of four small inputs that are inspected, worked out.
pub fn small_inspections()
    ensures name { inspect_run (codes "0706 080161\t320100\r\n") ≡ plain_run
        (codes "07 Name 6\n  08 GenericNameComponent 1 61\n  32 SegmentNameComponent 1 00\n") Done }
    ensures fault { inspect_run (codes "0704070207")
        ≡ plain_run (codes "fault Truncated 0\n") (Refused 1 12) }
    ensures inner_fault { inspect_run (codes "070207fd")
        ≡ plain_run (codes "07 Name 2\nfault Truncated 3\n") (Refused 1 12) }
    ensures syntax { inspect_run (codes "0g")
        ≡ plain_run (codes "refused 1 1 Syntax\n") (Refused 1 1) }
{}

/// The scripts that few words ask for, worked out.
pub fn small_scripts()
    ensures two_members { (env : RunEnvironment)
        → asked_run env (asked_of (codes "gen" ∷ codes "2" ∷ codes "1" ∷ codes "1" ∷ [])) None
        ≡ Some (plain_run (codes "group /g\nmember m1 /n/1 6b01\nmember m2 /n/2 6b02\n"
        ++ codes "publish m1 /o/1 100 fill:400:111\nsettle 4\nsummary\n") Done) }
    ensures ten_objects { (env : RunEnvironment)
        → asked_run env (asked_of (codes "gen" ∷ codes "1" ∷ codes "10" ∷ codes "0" ∷ [])) None
        ≡ Some (plain_run (codes "group /g\nmember m1 /n/1 6b01\npublish m1 /o/1 100 fill:300:123\n"
        ++ codes "publish m1 /o/2 100 fill:200:238\npublish m1 /o/3 100 fill:200:120\n"
        ++ codes "publish m1 /o/4 100 fill:300:26\npublish m1 /o/5 100 fill:300:76\n"
        ++ codes "publish m1 /o/6 100 fill:100:127\npublish m1 /o/7 100 fill:200:147\n"
        ++ codes "publish m1 /o/8 100 fill:400:119\npublish m1 /o/9 100 fill:500:91\n"
        ++ codes "publish m1 /o/10 100 fill:400:233\ndeliver 10 m1\nfetch m1 4 3 200\n"
        ++ codes "settle 4\nsummary\n") Done) }
    ensures no_script { asked_of (codes "gen" ∷ codes "17" ∷ codes "1" ∷ codes "1" ∷ []) ≡ None }
{}
