// Records read and written, exported.
ghost use Rattle.std.specs.Prelude.{◌≡◌};
ghost use Rattle.writing.specs.Writing.{out_written};
ghost use Rattle.shelf.specs.Shelf.{shape_of};
ghost use Rattle.shelf.specs.Records.{read_number, stripe_left, lost_left, numbers_left, write_number, length_left};

// 0, and the surviving columns, the lost positions and the five numbers k, r, t, l and how many are lost are filled in; or a
// refusal, and nothing is written.
#[unsafe(no_mangle)]
pub extern "C" fn shelf_read_record(
    record: &[u8],
    stripe: &mut [u8],
    lost: &mut [u16],
    numbers: &mut [u64],
) -> u32
    ensures value { result ≡ read_number «record».now stripe.old lost.old numbers.old }
    ensures stripe_after { stripe.new
        ≡ stripe_left «record».now stripe.old lost.old numbers.old }
    ensures lost_after { lost.new
        ≡ lost_left «record».now stripe.old lost.old numbers.old }
    ensures numbers_after { numbers.new
        ≡ numbers_left «record».now stripe.old lost.old numbers.old }
{
    shelf::records::shelf_read_record(record, stripe, lost, numbers)
}

// 0, and the record stands at the front of the output, whose rest stays, and its length is written; or a refusal, and nothing is.
#[unsafe(no_mangle)]
pub extern "C" fn shelf_write_record(
    k: u64,
    r: u64,
    t: u64,
    l: u64,
    stripe: &[u8],
    lost: &[u16],
    out: &mut [u8],
    length: &mut u64,
) -> u32
    ensures value { result ≡ write_number (shape_of k r t l) stripe.now lost.now out.old }
    ensures out_after { out.new ≡ out_written (shape_of k r t l) stripe.now lost.now out.old }
    ensures length_after { length.new
        ≡ length_left (shape_of k r t l) stripe.now lost.now out.old length.old }
{
    shelf::records::shelf_write_record(k, r, t, l, stripe, lost, out, length)
}
