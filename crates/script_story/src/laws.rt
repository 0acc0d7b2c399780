ghost use Rattle.std.specs.Prelude.{[], ◌++◌, codes};
ghost use Rattle.script_story.specs.declared.ending.Ending.TheVariants.{Done, Refused};
ghost use Rattle.script_story.specs.Evaluation.{EachLineIsEvaluated, RunEnvironment, SyntaxIsOfTheGrammar};
ghost use Rattle.script_story.specs.ScriptRun.{Reports};

/// Every line is evaluated, and refused as Syntax exactly where the grammar refuses it.
pub fn syntax_is_of_the_grammar()
    ensures evaluated { EachLineIsEvaluated }
    ensures syntax { SyntaxIsOfTheGrammar }
{}

/// What small scripts report, worked out, whatever the draws and the network are.
pub fn small_runs()
    ensures nothing { (env : RunEnvironment) → Reports env [] [] Done }
    ensures no_group { (env : RunEnvironment)
        → Reports env (codes "settle 1\n") (codes "refused 1 9 NoGroup\n") (Refused 1 9) }
    ensures group_alone { (env : RunEnvironment) → Reports env (codes "group /g\r\nsettle 1\n\n  # moment\nadvance 5")
        (codes "settle syncs 0 kept 0\nadvance now 5\n") Done }
    ensures nobody { (env : RunEnvironment)
        → Reports env (codes "group /g\nmember alice /alice 6b31\nvector alice\nvector bob\nsummary\n")
        (codes "vector alice alice=0\nrefused 4 2 UnknownLabel\n") (Refused 4 2) }
    ensures published { (env : RunEnvironment)
        → Reports env (codes "group /g\nmember alice /alice 6b31\nmember bob /bob 6b32\n"
        ++ codes
        "publish alice /doc 1 text:abc\ndeliver 1 bob\nvector bob\nclaim bob 1\ncatalogue bob\ndeliver 2 bob\n")
        (codes "publish alice 1 segments 3 sync 1\ndeliver 1 bob steady\nvector bob alice=1 bob=0\n"
        ++ codes "claim bob 1 part alice 1 0\ncatalogue bob 0\nrefused 9 5 NoSuchPacket\n") (Refused 9 5) }
    ensures withdrawn { (env : RunEnvironment)
        → Reports env (codes "group /g\nmember alice /alice 6b31\npublish alice /doc 1 text:\nwithdraw alice 1\n"
        ++ codes "catalogue alice\nwithdraw alice 1\n")
        (codes "publish alice 1 segments 0 sync 1\nwithdraw alice 2 of 1 sync 2\ncatalogue alice 0\n"
        ++ codes "refused 6 14 NoSuchNumber\n") (Refused 6 14) }
    ensures watched { (env : RunEnvironment)
        → Reports env (codes "group /g\nmember alice /alice 6b31\nwatch alice * /\ntold alice 1\ntold alice 2\n")
        (codes "watch alice 1\ntold alice 1 0\nrefused 5 15 NoSuchWatch\n") (Refused 5 15) }
    ensures mirrored { (env : RunEnvironment)
        → Reports env (codes "group /g\nmember alice /alice 6b31\nmirror mia alice /doc\npublish alice /doc 1 text:\n"
        ++ codes "mdeliver 1 mia\nmcatalogue mia\nsettle 1\nmcatalogue mia\nmfetch mia 1 1 0\nmdeliver 3 mia\n")
        (codes "publish alice 1 segments 0 sync 1\nmdeliver 1 mia\nmcatalogue mia 0\nsettle syncs 1 kept 0\n"
        ++ codes "mcatalogue mia 1\nentry alice 1 /doc segments 0 octets 0 sha256 "
        ++ codes "e3b0c44298fc1c149afbf4c8996fb92427ae41e4649b934ca495991b7852b855\n"
        ++ codes "mfetch mia planned 0 kept 0 attempts 0\nrefused 10 5 NoSuchPacket\n") (Refused 10 5) }
{}

/// One publication that reaches two catalogues, worked out.
pub fn first_run()
    ensures { (env : RunEnvironment) → Reports env
        (codes "group /g\nmember alice /alice 6b31\nmember bob /bob 6b32\npublish alice /doc 10 text:abc\nsettle 2\n"
        ++ codes "catalogue alice\ncatalogue bob\ntraffic\n")
        (codes "publish alice 1 segments 1 sync 1\nsettle syncs 2 kept 2\n"
        ++ codes "catalogue alice 1\nentry alice 1 /doc segments 1 octets 3 sha256 "
        ++ codes "ba7816bf8f01cfea414140de5dae2223b00361a396177a9cb410ff61f20015ad\n"
        ++ codes "catalogue bob 1\nentry alice 1 /doc segments 1 octets 3 sha256 "
        ++ codes "ba7816bf8f01cfea414140de5dae2223b00361a396177a9cb410ff61f20015ad\n"
        ++ codes "traffic syncs 3 delivered 2 attempts 0 parts 2 octets 197\n") Done }
{}
