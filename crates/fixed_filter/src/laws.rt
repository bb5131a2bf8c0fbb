//! Laws of the definitions. These functions do nothing: the contract of each is the law.

ghost use Rattle.std.specs.Prelude.{◌≡◌, ◌-◌, ◌*◌, ◌^◌, ◌<◌, ◌≤◌, ◌≤ℤ◌, ◌-ℤ◌, ◌*ℤ◌, Bool, List, [], ◌∷◌, Some, length, negsuc, pos, suc, true, ℕ, ℤ};
ghost use Rattle.fixed_text.specs.Runs.{Output};
ghost use Rattle.fixed_text.specs.Texts.{IsReader};
ghost use Rattle.fixed_text.specs.Words.{is_signed, width};
ghost use Rattle.fixed_filter.specs.Banks.{places_of};
ghost use Rattle.fixed_policy.specs.DotProduct.{products};
ghost use Rattle.fixed_filter.specs.Outputs.{alone, own, replies, taps_at};
ghost use Rattle.fixed_filter.specs.Lines.{header_of, line_of};
ghost use Rattle.fixed_filter.specs.Replies.{filter_reply};
ghost use Rattle.fixed_filter.specs.Runs.{filter_output, shape_fits, shape_of};
ghost use Rattle.fixed_filter.specs.Scripts.{all_fit, are_samples, channels_and_samples, reply_texts, script_text, taps_of_channels};
ghost use Rattle.fixed_filter.specs.Sections.{Coefficients, SectionPast, computed_past, feedback, run_error};
ghost use Rattle.fixed_filter.specs.Text.{FilterHeader, header_text, line_text};
ghost use Rattle.fixed_filter.specs.declared.reply.Reply.TheVariants.{Value};

/// If products are shifted right by s bits, an output lies at or below the exact sum, by at most `1 - 2^-s` units of
/// the output for each tap. If products are shifted left, the output is the exact sum.
pub fn output_law()
    ensures from_zero { (signed : Bool) (n s : ℕ) (v : ℤ) (ps : List (ℤ × ℤ))
        → filter_reply signed n (pos s) ps ≡ Value v
        → pos 0 ≤ℤ (products ps -ℤ v *ℤ pos (2 ^ s)) }
    ensures at_most { (signed : Bool) (n s : ℕ) (v : ℤ) (ps : List (ℤ × ℤ))
        → filter_reply signed n (pos s) ps ≡ Value v
        → (products ps -ℤ v *ℤ pos (2 ^ s)) ≤ℤ pos (length ps * (2 ^ s - 1)) }
    ensures exact { (signed : Bool) (n t : ℕ) (v : ℤ) (ps : List (ℤ × ℤ))
        → filter_reply signed n (negsuc t) ps ≡ Value v
        → v ≡ products ps *ℤ pos (2 ^ suc t) }
{}

/// If each output of a run of a second-order section fits, it lies within `5 (S - 1) / (S - A)` units of the output of
/// the exact run, which begins with the same samples and outputs, and rounds no product. S is `2^g`, and A, which is below
/// S, is the sum of the magnitudes of the bits of `a1` and `a2`. The clause has this bound times `S^k (S - A)`, where k
/// is the number of samples.
pub fn run_law()
    ensures { (signed : Bool) (n g : ℕ) (c : Coefficients) (start last : SectionPast) (samples : List ℤ)
        → computed_past signed n g c start samples ≡ Some last
        → feedback c < 2 ^ g
        → run_error g c start samples last.y1 * (2 ^ g - feedback c)
        ≤ 5 * (2 ^ g - 1) * 2 ^ (g * length samples) }
{}

/// The replies to the samples of one channel are those of a bank that has only this channel and takes only these
/// samples.
pub fn channel_law()
    ensures { (signed : Bool) (n : ℕ) (s : ℤ) (bank : List (List ℤ)) (channel : ℕ)
        (samples : List (ℕ × ℤ))
        → own channel (replies signed n s bank [] samples)
        ≡ own 0 (replies signed n s (taps_at bank channel ∷ []) [] (alone (own channel samples))) }
{}

/// A script that adds channels and then gives them samples prints the replies to the samples, in order, if each number
/// of fraction bits is at most the width, taps and samples fit, and the channel of each sample exists.
/// [`channel_law`](channel_law) holds for these replies.
pub fn script_law()
    ensures { (h : FilterHeader) (channels : List (ℤ × List ℤ)) (samples : List (ℕ × ℤ))
        → shape_fits (width h.word) (shape_of h) ≡ true
        → all_fit (is_signed h.word) (width h.word) (taps_of_channels channels) ≡ true
        → are_samples (is_signed h.word) (width h.word) (length channels) samples ≡ true
        → filter_output (script_text h (channels_and_samples channels samples))
        ≡ Output (reply_texts [] (replies (is_signed h.word) (width h.word)
        (places_of (shape_of h)) (taps_of_channels channels) [] samples)) }
{}

/// Reading a piece as a header, or as a line, returns the one whose text the piece is, and nothing if there is none.
pub fn text_law()
    ensures headers { IsReader header_text header_of }
    ensures lines { IsReader line_text line_of }
{}
