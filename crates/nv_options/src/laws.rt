ghost use Rattle.std.specs.Prelude.{◌≡◌, ◌≤◌, ◌++◌, ℕ, List, [], ◌∷◌, Some, None, true, false, codes, decimal};
ghost use Rattle.clap.specs.declared.error.kind.ErrorKind.TheVariants.{DisplayHelp, DisplayVersion};
ghost use Rattle.nv_options.specs.Options.{accepts, faults, generate_in, hops_in};

/// No argument is accepted, and so is `--hops N` or `--hops=N` for each decimal from 1 to 64. Other numbers are not.
pub fn arguments_of_the_manual_are_accepted()
    ensures none { (name : List ℕ) → accepts (name ∷ []) ≡ true }
    ensures apart { (name : List ℕ) (n : ℕ) → 1 ≤ n → n ≤ 64 → accepts (name ∷ codes "--hops" ∷ decimal n ∷ []) ≡ true }
    ensures joined { (name : List ℕ) (n : ℕ) → 1 ≤ n → n ≤ 64 → accepts (name ∷ (codes "--hops=" ++ decimal n) ∷ []) ≡ true }
    ensures zero { (name : List ℕ) → accepts (name ∷ codes "--hops" ∷ codes "0" ∷ []) ≡ false }
    ensures above { (name : List ℕ) → accepts (name ∷ codes "--hops" ∷ codes "65" ∷ []) ≡ false }
{}

/// A traced packet may take 16 hops where no argument says so, and N where `--hops N` or `--hops=N` does.
pub fn hops_are_read()
    ensures none { (name : List ℕ) → hops_in (name ∷ []) ≡ 16 }
    ensures apart { (name : List ℕ) (n : ℕ) → 1 ≤ n → n ≤ 64 → hops_in (name ∷ codes "--hops" ∷ decimal n ∷ []) ≡ n }
    ensures joined { (name : List ℕ) (n : ℕ) → 1 ≤ n → n ≤ 64 → hops_in (name ∷ (codes "--hops=" ++ decimal n) ∷ []) ≡ n }
{}

/// So is `--generate N` or `--generate=N` for each decimal from 1 to 16000, and it asks for a generated network of N ports; and so beside
/// `--hops`, in either order. Other numbers, none, and a name are not accepted.
pub fn a_generated_network_is_asked_for()
    ensures none { (name : List ℕ) → generate_in (name ∷ []) ≡ None }
    ensures apart { (name : List ℕ) (n : ℕ) → 1 ≤ n → n ≤ 16000 → accepts (name ∷ codes "--generate" ∷ decimal n ∷ []) ≡ true }
    ensures apart_read { (name : List ℕ) (n : ℕ) → 1 ≤ n → n ≤ 16000 → generate_in (name ∷ codes "--generate" ∷ decimal n ∷ []) ≡ Some n }
    ensures joined { (name : List ℕ) (n : ℕ) → 1 ≤ n → n ≤ 16000 → accepts (name ∷ (codes "--generate=" ++ decimal n) ∷ []) ≡ true }
    ensures joined_read { (name : List ℕ) (n : ℕ) → 1 ≤ n → n ≤ 16000 → generate_in (name ∷ (codes "--generate=" ++ decimal n) ∷ []) ≡ Some n }
    ensures after_hops { (name : List ℕ) (h n : ℕ) → 1 ≤ h → h ≤ 64 → 1 ≤ n → n ≤ 16000
        → accepts (name ∷ (codes "--hops=" ++ decimal h) ∷ (codes "--generate=" ++ decimal n) ∷ []) ≡ true }
    ensures before_hops { (name : List ℕ) (h n : ℕ) → 1 ≤ h → h ≤ 64 → 1 ≤ n → n ≤ 16000
        → accepts (name ∷ (codes "--generate=" ++ decimal n) ∷ (codes "--hops=" ++ decimal h) ∷ []) ≡ true }
    ensures zero { (name : List ℕ) → accepts (name ∷ codes "--generate" ∷ codes "0" ∷ []) ≡ false }
    ensures above { (name : List ℕ) → accepts (name ∷ codes "--generate" ∷ codes "16001" ∷ []) ≡ false }
    ensures too_wide { (name : List ℕ) → accepts (name ∷ codes "--generate" ∷ codes "65536" ∷ []) ≡ false }
    ensures no_number { (name : List ℕ) → accepts (name ∷ codes "--generate" ∷ []) ≡ false }
    ensures a_name { (name : List ℕ) → accepts (name ∷ codes "--generate" ∷ codes "p0" ∷ []) ≡ false }
{}

/// `--help` and `-h` ask only for the help, and `--version` and `-V` only for the version.
pub fn help_and_version_are_asked_for()
    ensures help { (name : List ℕ) → faults (name ∷ codes "--help" ∷ []) ≡ DisplayHelp ∷ [] }
    ensures short_help { (name : List ℕ) → faults (name ∷ codes "-h" ∷ []) ≡ DisplayHelp ∷ [] }
    ensures version { (name : List ℕ) → faults (name ∷ codes "--version" ∷ []) ≡ DisplayVersion ∷ [] }
    ensures short_version { (name : List ℕ) → faults (name ∷ codes "-V" ∷ []) ≡ DisplayVersion ∷ [] }
{}
