// Attributes with every member set. In an array of 165s, what is silent stays 165: reserved bytes, bytes after a text's closing zero,
// bytes after the sizes of document 01's table, bodies of type 7.
use cases_contexts::build;

// A platform of `size` bytes at 8. All of its members are written, and what is put after a short one then covers those past its size.
pub fn platform(buf: &mut [u8; 1024], size: u64) {
    build::header(buf, 8, 1, size);
    build::put_bytes(buf, 24, b"frost\0");
    build::put_rows(
        buf,
        b"\
        type: 16 4 2\n\
        loader major: 20 2 1\n\
        loader minor: 22 2 4\n\
        rsdp: 56 8 917504\n\
        higher half base: 64 8 18446603336221196288\n\
        depth: 72 1 5\n\
        dtb: 80 8 73728\n\
        smbios: 88 8 81920\n",
    );
}

// Where the kernel comes from: its partition and its path.
fn origin(buf: &mut [u8; 1024], at: u64) {
    if at < 600 {
        build::put(buf, at + 32, 8, 3);
        build::put_bytes(
            buf,
            at + 40,
            b"\
            \x01\x02\x03\x04\x05\x06\x07\x08\x00\xff\x0b\x0c\x0d\x0e\x0f\x00\
            \x11\x12\x13\x14\x15\x16\x17\x18\x19\x1a\x1b\x1c\x1d\x1e\x1f\x20",
        );
        build::put(buf, at + 72, 4, 7);
        build::put(buf, at + 76, 4, 9);
        build::put_bytes(buf, at + 80, b"/boot/k\0");
    }
}

pub fn kernel(buf: &mut [u8; 1024], at: u64, size: u64) {
    if at < 600 {
        build::header(buf, at, 2, size);
        build::put(buf, at + 8, 8, 2097152);
        build::put(buf, at + 16, 8, 18446744071564165120);
        build::put(buf, at + 24, 8, 65536);
        origin(buf, at);
    }
}

// A map at 448 and two modules: one of 104 bytes at 504, and at 608 one whose name fills its field up to the closing zero.
fn map_and_modules(buf: &mut [u8; 1024]) {
    build::put_rows(
        buf,
        b"\
        map: 448 4 3\n\
        its size: 452 4 56\n\
        an address: 456 8 72623859790382856\n\
        its size: 464 8 4096\n\
        its type: 472 8 1\n\
        an address: 480 8 1230066625199609624\n\
        its size: 488 8 8192\n\
        its type: 496 8 2387509390608836392\n\
        module: 504 4 4\n\
        its size: 508 4 104\n\
        its type: 516 4 1\n\
        its address: 584 8 16777216\n\
        its size in memory: 592 8 123457\n\
        module: 608 4 4\n\
        its size: 612 4 96\n\
        its type: 620 4 2\n\
        its address: 688 8 33554432\n\
        its size in memory: 696 8 4096\n",
    );
    build::put_bytes(buf, 520, b"initrd\0");
    build::put_bytes(
        buf,
        624,
        b"aaaaaaaabbbbbbbbccccccccddddddddeeeeeeeeffffffffgggggggghhhhhhh\0",
    );
}

// A command line, a framebuffer and an attribute of type 7.
fn others(buf: &mut [u8; 1024]) {
    build::put_rows(
        buf,
        b"\
        command line: 704 4 5\n\
        its size: 708 4 24\n\
        framebuffer: 728 4 6\n\
        its size: 732 4 40\n\
        its width: 736 4 1024\n\
        its height: 740 4 768\n\
        its pitch: 744 4 4100\n\
        its bits: 748 2 32\n\
        its format: 750 2 3\n\
        its address: 752 8 3489660928\n\
        another: 768 4 7\n\
        its size: 772 4 16\n",
    );
    build::put_bytes(buf, 712, b"quiet\0");
}

// Types 1, 2, 3, 4, 4, 5, 6 and 7 in 784 bytes.
pub fn every_type(buf: &mut [u8; 1024]) {
    build::head(buf, 8);
    platform(buf, 96);
    kernel(buf, 104, 344);
    map_and_modules(buf);
    others(buf);
}
