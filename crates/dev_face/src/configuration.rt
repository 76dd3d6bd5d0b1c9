//! What the configuration of a virtio device reads.
ghost use Rattle.std.specs.Prelude.{◌≡◌, ◌<◌, ◌^◌};
ghost use Rattle.dev_face.specs.Configs.{config_byte, config_value};

use tb_base::Width;

/// The byte at a place.
fn config_byte(bytes: &[u8], at: usize) -> u8
    ensures { result ≡ config_byte bytes.now at }
{
    if at < bytes.len() { bytes[at] } else { 0 }
}

/// The number that stands from a place of the configuration on, low byte first. Past its end it reads 0.
pub fn config_value(bytes: &[u8], at: usize, width: Width) -> u32
    requires { at < 2 ^ 32 }
    ensures { result ≡ config_value bytes.now at width }
{
    match width {
        Width::Byte => u32::from(config_byte(bytes, at)),
        Width::Half => {
            u32::from(config_byte(bytes, at)) + 0x100 * u32::from(config_byte(bytes, at + 1))
        }
        Width::Word => {
            u32::from(config_byte(bytes, at))
                + 0x100 * u32::from(config_byte(bytes, at + 1))
                + 0x1_0000 * u32::from(config_byte(bytes, at + 2))
                + 0x100_0000 * u32::from(config_byte(bytes, at + 3))
        }
    }
}
