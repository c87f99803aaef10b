// Text put into lent memory, each piece behind the one before.
ghost use Rattle.std.specs.Prelude.{◌≡◌, ◌++◌, length, decimal};
ghost use Rattle.plan_report.specs.Text.{HasRoom, Pushes};

// The memory, and where the text in it ends so far: the memory is lent, so there is a place beside it and not a String.
#[derive(Drop)]
pub(crate) struct Text<'m> {
    memory: &'m mut [u8],
    end: usize,
}

impl<'m> Text<'m> {
    // A text that begins where its memory does.
    pub(crate) fn new(memory: &'m mut [u8]) -> Text<'m>
        ensures memory { result.memory.now ≡ memory.old }
        ensures same_memory { result.memory.ghost_name ≡ memory.entry.ghost_name }
        ensures end { result.end ≡ 0 }
    {
        Text { memory, end: 0 }
    }

    // How long the text is.
    pub(crate) fn len(&self) -> usize
        ensures { result ≡ self.now.end }
    {
        self.end
    }

    // Puts bytes behind the text.
    pub(crate) fn push(&mut self, bytes: &[u8])
        requires { HasRoom self.old (length bytes.now) }
        ensures { Pushes bytes.now self.old self.new }
    {
        let end = self.end + bytes.len();
        self.memory[self.end..end].copy_from_slice(bytes);
        self.end = end;
    }

    // Puts a number in decimal digits.
    pub(crate) fn push_number(&mut self, number: u32)
        requires { HasRoom self.old (length (decimal number)) }
        ensures { Pushes (decimal number) self.old self.new }
    {
        if number >= 10 {
            self.push_number(number / 10);
        }
        self.push(&[b'0' + (number % 10) as u8]);
    }

    // Puts a word and a number behind it.
    pub(crate) fn push_field(&mut self, word: &[u8], number: u32)
        requires { HasRoom self.old (length (word.now ++ decimal number)) }
        ensures { Pushes (word.now ++ decimal number) self.old self.new }
    {
        self.push(word);
        self.push_number(number);
    }
}
