// The record test, for C: "The gateway's C program calls the record test (2, 3, 4 from the bytes, F and S) before it queues anything".
#![tactic(auto)]

ghost use Rattle.std.specs.Prelude.{◌≡◌};
ghost use Rattle.book_rules.specs.Record.{record_test};

use layout::drawn;
use record::test_sized_record;

#[unsafe(no_mangle)]
pub extern "C" fn bilzhaan_record_test(bytes: &[u8], facilities: i32, services: i32) -> u32
    ensures { result ≡ record_test bytes.now facilities services }
{
    drawn(test_sized_record(bytes, facilities, services))
}
