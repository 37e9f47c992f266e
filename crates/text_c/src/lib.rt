// The reader of texts behind the C boundary, for tests from outside.
#![tactic(auto)]

ghost use Rattle.std.specs.Prelude.{◌≡◌};
ghost use Rattle.reply.specs.Reply.{packed};
ghost use Rattle.text_c.specs.Reads.{nodes_or_refusal};

// Reads a text. Returns the number of its nodes, or the refusal.
#[unsafe(no_mangle)]
pub extern "C" fn text_read(s: &[u8]) -> u64
    ensures { result ≡ packed (nodes_or_refusal s.now) }
{
    let mut table = [0u32; text::TABLE_SIZE];
    let answer = text::read(s, &mut table);
    match answer {
        Ok(n) => n as u64,
        Err(x) => reply::refused(x),
    }
}
