ghost use Rattle.delay_file.specs.Bytes.{every, graphic};
ghost use Rattle.delay_file.specs.Records.{lawful_name};
ghost use Rattle.std.specs.Prelude.{◌≡◌};

use crate::layout::MAX_NAME;

// Whether a register may have this name: 1 to 24 bytes from 33 to 126.
pub fn is_lawful_name(name: &[u8]) -> bool
    ensures { result ≡ lawful_name name.now }
{
    (1..=MAX_NAME).contains(&name.len()) && all_graphic(name)
}

fn all_graphic(bytes: &[u8]) -> bool
    ensures { result ≡ every graphic bytes.now }
{
    bytes.iter().all(|b| (33..=126).contains(b))
}
