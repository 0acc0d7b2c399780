ghost use Rattle.std.specs.Prelude.{◌≡◌, ◌↔◌, ℕ, Bool, not, IsTrue, List, Option, Some, None, Ok, IsOk};
ghost use Rattle.std.specs.Prelude.{if◌then◌else◌};
ghost use Rattle.std.specs.List.{filter, list_any};
ghost use Rattle.std.specs.Ordering.{eq_by_cmp, nat_cmp};
ghost use Rattle.std.specs.Cmp.Lexicographic.{slice_cmp};
ghost use Rattle.std.specs.Option.{option_or};
ghost use Rattle.sha2.specs.Sha256.{sha256};
ghost use Rattle.ndn_name.specs.Names.{Component};
ghost use Rattle.ndn_interest.specs.Interest.{Interest, interest_of};
ghost use Rattle.ndn_data.specs.Data.{Data, data_of, Satisfies};
ghost use Rattle.repo_plan.specs.declared.part.Part.{Part};
ghost use Rattle.sorted_lists.specs.SortedList.{Rises, keys, contains, value_of, insert_key};
ghost use Rattle.repo_plan.specs.Parts.{Pair, part_cmp};
ghost use Rattle.repo_plan.specs.Plan.{is_in};
ghost use Rattle.repo_store.specs.StoreList.{with_packet, packets_outside, different_octets, StoreIsSound};
ghost use Rattle.repo_store.specs.Served.{satisfies, served, served_part};
ghost use Rattle.repo_store.specs.Answers.{AnswersWith};

/// A packet that reads as Data passes the test `satisfies` just where an Interest of the name asks for it.
pub fn satisfying_is_decided()
    ensures { (name : List Component) (can_be_prefix : Bool) (octets : List ℕ) (d : Data)
        → data_of octets ≡ Ok d
        → (IsTrue (satisfies name can_be_prefix octets)
        ↔ Satisfies name can_be_prefix (sha256 octets) d) }
{}

/// The answer is the packet of the least part that satisfies the Interest; there is none where no
/// packet does, or where the packet must be fresh.
pub fn served_part_is_the_least()
    ensures { (interest : List ℕ) (packets : List (Part × List ℕ)) (i : Interest)
        (part : Option Part) → Rises part_cmp (keys packets) → interest_of interest ≡ Ok i
        → served_part interest packets ≡ Ok part → AnswersWith i packets part }
{}

/// What is served is the packet of the part that is served.
pub fn served_packet_is_of_its_part()
    ensures { (interest : List ℕ) (packets : List (Part × List ℕ)) (part : Part)
        → Rises part_cmp (keys packets) → served_part interest packets ≡ Ok (Some part)
        → served interest packets ≡ Ok (value_of part_cmp packets part) }
{}

/// A part that was there keeps its packet, the part that is put has the new one, and the others
/// stay as they were.
pub fn put_packet_is_got()
    ensures { (part : Part) (octets : List ℕ) (packets : List (Part × List ℕ)) (t : Part)
        → value_of part_cmp (with_packet part octets packets) t
        ≡ option_or (value_of part_cmp packets t)
        (if eq_by_cmp part_cmp t part then Some octets else None) }
{}

/// Each packet that is got reads as Data.
pub fn got_packets_are_data()
    ensures { (packets : List (Part × List ℕ)) (part : Part) (octets : List ℕ) → StoreIsSound packets
        → value_of part_cmp packets part ≡ Some octets → IsOk (data_of octets) }
{}

/// The parts of a store are a set that gains each part that is put.
pub fn put_part_is_among_the_parts()
    ensures { (part : Part) (octets : List ℕ) (packets : List (Part × List ℕ))
        → Rises part_cmp (keys packets)
        → keys (with_packet part octets packets) ≡ insert_key part_cmp part (keys packets) }
{}

/// The parts of a store lose those of a publication that is dropped.
pub fn dropped_parts_are_gone()
    ensures { (pair : Pair) (packets : List (Part × List ℕ))
        → keys (packets_outside pair packets) ≡ filter (λ t. not (is_in pair t)) (keys packets) }
{}

/// The different octet lists are those that some part has, each once.
pub fn different_octets_are_of_parts()
    ensures once { (packets : List (Part × List ℕ))
        → Rises (slice_cmp nat_cmp) (different_octets packets) }
    ensures those { (packets : List (Part × List ℕ)) (octets : List ℕ)
        → contains (slice_cmp nat_cmp) (different_octets packets) octets
        ≡ list_any (λ e. eq_by_cmp (slice_cmp nat_cmp) octets e.1) packets }
{}
