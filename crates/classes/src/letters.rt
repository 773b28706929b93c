// Letters of either case are the same in words.
ghost use Rattle.std.specs.Prelude.{◌≡◌};
ghost use Rattle.rules.specs.Text.Bytes.{fold};

// The byte in upper case.
#[tactic(auto, unfolding(rules::specs::Text::Bytes::fold))]
pub fn upper(b: u8) -> u8
    ensures { result ≡ fold b }
{
    b.to_ascii_uppercase()
}
