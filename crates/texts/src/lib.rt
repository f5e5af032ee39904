// Lines of fixed words and decimals, written into a lent buffer.
#![tactic(auto)]

ghost use Rattle.std.specs.Prelude.{[], ◌∷◌};
ghost use Rattle.texts.specs.Decimal.{decimal};
ghost use Rattle.texts.specs.Lines.{field, line};
ghost use Rattle.texts.specs.Inner.Page.{HasRoom, Puts, words_of};

// Three numbers of a line.
#[derive(Clone, Copy)]
pub struct Triple {
    pub x: u64,
    pub y: u64,
    pub z: u64,
}

// A text in a lent buffer: its first `end` bytes are written, and each writer goes on behind them.
#[derive(Drop)]
pub struct Page<'a> {
    pub out: &'a mut [u8],
    pub end: usize,
}

impl Page<'_> {
    pub fn put_text(&mut self, text: &[u8])
        requires { HasRoom self.old text.now }
        ensures { Puts self.old text.now self.new }
    {
        let end = self.end + text.len();
        self.out[self.end..end].copy_from_slice(text);
        self.end = end;
    }

    fn put_byte(&mut self, byte: u8)
        requires { HasRoom self.old (byte ∷ []) }
        ensures { Puts self.old (byte ∷ []) self.new }
    {
        self.out[self.end] = byte;
        self.end += 1;
    }

    pub fn put_decimal(&mut self, value: u64)
        requires { HasRoom self.old (decimal value) }
        ensures { Puts self.old (decimal value) self.new }
    {
        let tenth = value / 10;
        if tenth > 0 {
            self.put_decimal(tenth);
        }
        self.put_byte((48 + value % 10) as u8);
    }

    // A fixed word, a decimal and the byte after it.
    pub fn put_field(&mut self, word: &[u8], value: u64, after: u8)
        requires { HasRoom self.old (field word.now value after) }
        ensures { Puts self.old (field word.now value after) self.new }
    {
        self.put_text(word);
        self.put_decimal(value);
        self.put_byte(after);
    }

    // A line of fixed words, each with its number.
    pub fn put_line(&mut self, fields: &[(&[u8], u64)])
        requires { HasRoom self.old (line (words_of fields.now)) }
        ensures { Puts self.old (line (words_of fields.now)) self.new }
    {
        for (i, (word, value)) in fields.iter().enumerate() {
            let after = if i + 1 == fields.len() { b'\n' } else { b' ' };
            self.put_field(word, *value, after);
        }
    }
}
