ghost use Rattle.std.specs.Prelude.{◌≡◌, ◌++◌, ◌+◌, ◌<◌, ℕ, List, [], ◌∷◌, true, length, sum_by};
ghost use Rattle.clap.specs.Words.{Text};
ghost use Rattle.nv_options.specs.Options.{accepts, generate_in};
ghost use Rattle.nv_io.specs.Passed.{IsPrefix};
ghost use Rattle.nv_base.specs.Object.{number_limit};
ghost use Rattle.nv_serve.specs.Output.{output, complete_output, first_lines};
ghost use Rattle.nv_serve.specs.Traced.{TracesAreMeant};

/// What is written once an input's complete lines are answered begins the output of each input that begins with it, where the arguments
/// are accepted. So does the output of an input that ends with a newline, whatever the arguments.
#[tactic(auto, using(crate::proofs::Outputs::begins, crate::proofs::Outputs::goes_on))]
pub fn output_goes_on()
    ensures complete { (words : List Text) (input more : List ℕ) → accepts words ≡ true
        → IsPrefix (complete_output words input) (output words (input ++ more)) }
    ensures at_line_end { (words : List Text) (input more : List ℕ)
        → IsPrefix (output words (input ++ 10 ∷ [])) (output words ((input ++ 10 ∷ []) ++ more)) }
{}

/// Each trace among lines that have, with those that the run begins with, fewer bytes than there are numbers of objects is answered by
/// the lines of events that are, hits left out, what the network does with the packet, from the state that earlier packets left: so also
/// what was answered before a fault.
pub fn traces_are_meant()
    ensures { (words : List Text) (lines : List (List ℕ)) → 1 + sum_by length (first_lines (generate_in words) ++ lines) < number_limit → TracesAreMeant words lines }
{}
