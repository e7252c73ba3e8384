// Records that real kernels left, as they were read from pstore: two dumps and the console of one machine, which
// survived oopses and then was crashed by sysrq, and the dump of another.

pub const OOPS: &[u8] = b"\
Oops#7 Part1\n\
<4>[    2.961831] RDX: 00000000000000e1 RSI: ffffc900000cfcb0 RDI: ffffffffa001b2c0\n\
<4>[    2.962351] RBP: ffffc900000cfdc8 R08: 0000000000000000 R09: 0000000000000000\n\
<4>[    2.962784] R10: 003d0082002e0000 R11: 0003004a002000fd R12: 000000000000000a\n\
<4>[    2.963245] R13: ffffffffa001b2c0 R14: ffffc900000cfee8 R15: ffff888000614780\n\
<4>[    2.963779] FS:  0000000008e5d3c0(0000) GS:ffff88800f800000(0000) knlGS:0000000000000000\n\
<4>[    2.964161] CS:  0010 DS: 0000 ES: 0000 CR0: 0000000080050033\n\
<4>[    2.964798] CR2: 0000000000000000 CR3: 0000000000a58000 CR4: 00000000000006b0\n\
<6>[    2.971320] lkdtm: Performing direct entry EXCEPTION\n\
<1>[    2.971909] BUG: kernel NULL pointer dereference, address: 0000000000000000\n\
<1>[    2.972468] #PF: supervisor write access in kernel mode\n\
<1>[    2.972803] #PF: error_code(0x0002) - not-present page\n\
<6>[    2.973249] PGD b9a067 P4D b9a067 PUD a56067 PMD 0 \n\
<4>[    2.973642] Oops: 0002 [#7] SMP\n\
<4>[    2.973949] CPU: 0 PID: 40 Comm: init Tainted: G      D            6.1.192 #4 \n\
<4>[    2.974496] RIP: 0010:lkdtm_EXCEPTION+0x8/0x14 [lkdtm]\n\
<4>[    2.974885] Code: e1 31 f6 48 89 df 48 89 45 d0 e8 8c 34 11 e1 48 8b 45 d0 48 83 c4 18 5b 41 5c 41 5d 41 5e 41 5f 5d c3 0f 1f 44 00 00 55 31 c0 <89> 04 25 00 00 00 00 48 89 e5 5d c3 0f 1f 44 00 00 55 48 89 e5 eb\n\
<4>[    2.975717] RSP: 0018:ffffc900000cfdb8 EFLAGS: 00000246\n\
<4>[    2.976257] RAX: 0000000000000000 RBX: ffff888000bae000 RCX: 0000000000000003\n\
<4>[    2.976604] RDX: 0000000000000225 RSI: ffffc900000cfcb0 RDI: ffffffffa001b2c0\n\
<4>[    2.977084] RBP: ffffc900000cfdc8 R08: 0000000000000000 R09: 0000000000000000\n\
<4>[    2.977425] R10: 00c900ee001400cd R11: 003000f2005b00f9 R12: 000000000000000a\n\
<4>[    2.977888] R13: ffffffffa001b2c0 R14: ffffc900000cfee8 R15: ffff888000614780\n\
<4>[    2.978364] FS:  0000000008e5d3c0(0000) GS:ffff88800f800000(0000) knlGS:0000000000000000\n\
<4>[    2.978752] CS:  0010 DS: 0000 ES: 0000 CR0: 0000000080050033\n\
<4>[    2.979183] CR2: 0000000000000000 CR3: 0000000000a58000 CR4: 00000000000006b0\n\
<4>[    2.979711] Call Trace:\n\
<4>[    2.979968]  <TASK>\n\
<4>[    2.980231]  ? lkdtm_do_action+0x1c/0x1e [lkdtm]\n\
<4>[    2.980621]  direct_entry+0xb0/0xc7 [lkdtm]\n\
<4>[    2.981080]  full_proxy_write+0x4a/0x66\n\
<4>[    2.981429]  vfs_write+0xa7/0x16f\n\
<4>[    2.981714]  ? __fget_light+0x2c/0x4d\n\
<4>[    2.982173]  ? __fdget+0x13/0x15\n\
<4>[    2.982501]  ksys_write+0x6b/0x9c\n\
<4>[    2.982806]  __x64_sys_write+0x19/0x1b\n\
<4>[    2.983243]  x64_sys_call+0x2d/0xd73\n\
<4>[    2.983571]  do_syscall_64+0x3d/0x4c\n\
<4>[    2.983855]  entry_SYSCALL_64_after_hwframe+0x4b/0xb5\n\
<4>[    2.984180] RIP: 0033:0x47b7a0\n\
<4>[    2.984541] Code: 40 00 48 c7 c2 e0 ff ff ff f7 d8 64 89 02 48 c7 c0 ff ff ff ff eb b7 0f 1f 00 80 3d e8 85 16 00 00 74 17 b8 01 00 00 00 0f 05 <48> 3d 00 f0 ff ff 77 58 c3 0f 1f 80 00 00 00 00 48 83 ec 28 48 89\n\
<4>[    2.985207] RSP: 002b:00007ffe10f72218 EFLAGS: 00000202 ORIG_RAX: 0000000000000001\n\
<4>[    2.985757] RAX: ffffffffffffffda RBX: 0000000000000001 RCX: 000000000047b7a0\n\
<4>[    2.986216] RDX: 000000000000000a RSI: 0000000008e61590 RDI: 0000000000000001\n\
<4>[    2.986634] RBP: 0000000008e61590 R08: fefefefefefefeff R09: fefefefefefeff4d\n\
<4>[    2.987102] R10: 00000000000001b6 R11: 0000000000000202 R12: 000000000000000a\n\
<4>[    2.987604] R13: 0000000008e5d3a0 R14: 0000000000000001 R15: 00007ffe10f72280\n\
<4>[    2.988007]  </TASK>\n\
<4>[    2.988282] Modules linked in: lkdtm ramoops reed_solomon\n\
<4>[    2.988847] CR2: 0000000000000000\n\
<4>[    2.989466] ---[ end trace 0000000000000000 ]---\n\
\n\
ECC: No errors detected\n\
";

pub const PANIC: &[u8] = b"\
Panic#8 Part1\n\
<4>[    2.975717] RSP: 0018:ffffc900000cfdb8 EFLAGS: 00000246\n\
<4>[    2.976257] RAX: 0000000000000000 RBX: ffff888000bae000 RCX: 0000000000000003\n\
<4>[    2.976604] RDX: 0000000000000225 RSI: ffffc900000cfcb0 RDI: ffffffffa001b2c0\n\
<4>[    2.977084] RBP: ffffc900000cfdc8 R08: 0000000000000000 R09: 0000000000000000\n\
<4>[    2.977425] R10: 00c900ee001400cd R11: 003000f2005b00f9 R12: 000000000000000a\n\
<4>[    2.977888] R13: ffffffffa001b2c0 R14: ffffc900000cfee8 R15: ffff888000614780\n\
<4>[    2.978364] FS:  0000000008e5d3c0(0000) GS:ffff88800f800000(0000) knlGS:0000000000000000\n\
<4>[    2.978752] CS:  0010 DS: 0000 ES: 0000 CR0: 0000000080050033\n\
<4>[    2.979183] CR2: 0000000000000000 CR3: 0000000000a58000 CR4: 00000000000006b0\n\
<4>[    2.979711] Call Trace:\n\
<4>[    2.979968]  <TASK>\n\
<4>[    2.980231]  ? lkdtm_do_action+0x1c/0x1e [lkdtm]\n\
<4>[    2.980621]  direct_entry+0xb0/0xc7 [lkdtm]\n\
<4>[    2.981080]  full_proxy_write+0x4a/0x66\n\
<4>[    2.981429]  vfs_write+0xa7/0x16f\n\
<4>[    2.981714]  ? __fget_light+0x2c/0x4d\n\
<4>[    2.982173]  ? __fdget+0x13/0x15\n\
<4>[    2.982501]  ksys_write+0x6b/0x9c\n\
<4>[    2.982806]  __x64_sys_write+0x19/0x1b\n\
<4>[    2.983243]  x64_sys_call+0x2d/0xd73\n\
<4>[    2.983571]  do_syscall_64+0x3d/0x4c\n\
<4>[    2.983855]  entry_SYSCALL_64_after_hwframe+0x4b/0xb5\n\
<4>[    2.984180] RIP: 0033:0x47b7a0\n\
<4>[    2.984541] Code: 40 00 48 c7 c2 e0 ff ff ff f7 d8 64 89 02 48 c7 c0 ff ff ff ff eb b7 0f 1f 00 80 3d e8 85 16 00 00 74 17 b8 01 00 00 00 0f 05 <48> 3d 00 f0 ff ff 77 58 c3 0f 1f 80 00 00 00 00 48 83 ec 28 48 89\n\
<4>[    2.985207] RSP: 002b:00007ffe10f72218 EFLAGS: 00000202 ORIG_RAX: 0000000000000001\n\
<4>[    2.985757] RAX: ffffffffffffffda RBX: 0000000000000001 RCX: 000000000047b7a0\n\
<4>[    2.986216] RDX: 000000000000000a RSI: 0000000008e61590 RDI: 0000000000000001\n\
<4>[    2.986634] RBP: 0000000008e61590 R08: fefefefefefefeff R09: fefefefefefeff4d\n\
<4>[    2.987102] R10: 00000000000001b6 R11: 0000000000000202 R12: 000000000000000a\n\
<4>[    2.987604] R13: 0000000008e5d3a0 R14: 0000000000000001 R15: 00007ffe10f72280\n\
<4>[    2.988007]  </TASK>\n\
<4>[    2.988282] Modules linked in: lkdtm ramoops reed_solomon\n\
<4>[    2.988847] CR2: 0000000000000000\n\
<4>[    2.989466] ---[ end trace 0000000000000000 ]---\n\
<4>[    3.014227] RIP: 0010:lkdtm_EXCEPTION+0x8/0x14 [lkdtm]\n\
<4>[    3.014785] Code: e1 31 f6 48 89 df 48 89 45 d0 e8 8c 34 11 e1 48 8b 45 d0 48 83 c4 18 5b 41 5c 41 5d 41 5e 41 5f 5d c3 0f 1f 44 00 00 55 31 c0 <89> 04 25 00 00 00 00 48 89 e5 5d c3 0f 1f 44 00 00 55 48 89 e5 eb\n\
<4>[    3.015668] RSP: 0018:ffffc900000cfdb8 EFLAGS: 00000246\n\
<4>[    3.016025] RAX: 0000000000000000 RBX: ffff888000b72000 RCX: 0000000000000003\n\
<4>[    3.016689] RDX: 00000000000000e1 RSI: ffffc900000cfcb0 RDI: ffffffffa001b2c0\n\
<4>[    3.017042] RBP: ffffc900000cfdc8 R08: 0000000000000000 R09: 0000000000000000\n\
<4>[    3.017557] R10: 003d0082002e0000 R11: 0003004a002000fd R12: 000000000000000a\n\
<4>[    3.018039] R13: ffffffffa001b2c0 R14: ffffc900000cfee8 R15: ffff888000614780\n\
<4>[    3.018430] FS:  0000000008e5d3c0(0000) GS:ffff88800f800000(0000) knlGS:0000000000000000\n\
<4>[    3.018915] CS:  0010 DS: 0000 ES: 0000 CR0: 0000000080050033\n\
<4>[    3.019374] CR2: 0000000000000000 CR3: 0000000000a58000 CR4: 00000000000006b0\n\
<12>[    3.026170] peer line 1\n\
<12>[    3.027837] peer line 2\n\
<12>[    3.029594] peer line 3\n\
<12>[    3.030620] peer line 4\n\
<12>[    3.031520] peer line 5\n\
<6>[    3.034160] sysrq: Trigger a crash\n\
<0>[    3.034971] Kernel panic - not syncing: sysrq triggered crash\n\
<0>[    3.036072] Kernel Offset: disabled\n\
\n\
ECC: No errors detected\n\
";

pub const CONSOLE: &[u8] = b"\
\x20   2.974885] Code: e1 31 f6 48 89 df 48 89 45 d0 e8 8c 34 11 e1 48 8b 45 d0 48 83 c4 18 5b 41 5c 41 5d 41 5e 41 5f 5d c3 0f 1f 44 00 00 55 31 c0 <89> 04 25 00 00 00 00 48 89 e5 5d c3 0f 1f 44 00 00 55 48 89 e5 eb\n\
[    2.975717] RSP: 0018:ffffc900000cfdb8 EFLAGS: 00000246\n\
[    2.976257] RAX: 0000000000000000 RBX: ffff888000bae000 RCX: 0000000000000003\n\
[    2.976604] RDX: 0000000000000225 RSI: ffffc900000cfcb0 RDI: ffffffffa001b2c0\n\
[    2.977084] RBP: ffffc900000cfdc8 R08: 0000000000000000 R09: 0000000000000000\n\
[    2.977425] R10: 00c900ee001400cd R11: 003000f2005b00f9 R12: 000000000000000a\n\
[    2.977888] R13: ffffffffa001b2c0 R14: ffffc900000cfee8 R15: ffff888000614780\n\
[    2.978364] FS:  0000000008e5d3c0(0000) GS:ffff88800f800000(0000) knlGS:0000000000000000\n\
[    2.978752] CS:  0010 DS: 0000 ES: 0000 CR0: 0000000080050033\n\
[    2.979183] CR2: 0000000000000000 CR3: 0000000000a58000 CR4: 00000000000006b0\n\
[    2.979711] Call Trace:\n\
[    2.979968]  <TASK>\n\
[    2.980231]  ? lkdtm_do_action+0x1c/0x1e [lkdtm]\n\
[    2.980621]  direct_entry+0xb0/0xc7 [lkdtm]\n\
[    2.981080]  full_proxy_write+0x4a/0x66\n\
[    2.981429]  vfs_write+0xa7/0x16f\n\
[    2.981714]  ? __fget_light+0x2c/0x4d\n\
[    2.982173]  ? __fdget+0x13/0x15\n\
[    2.982501]  ksys_write+0x6b/0x9c\n\
[    2.982806]  __x64_sys_write+0x19/0x1b\n\
[    2.983243]  x64_sys_call+0x2d/0xd73\n\
[    2.983571]  do_syscall_64+0x3d/0x4c\n\
[    2.983855]  entry_SYSCALL_64_after_hwframe+0x4b/0xb5\n\
[    2.984180] RIP: 0033:0x47b7a0\n\
[    2.984541] Code: 40 00 48 c7 c2 e0 ff ff ff f7 d8 64 89 02 48 c7 c0 ff ff ff ff eb b7 0f 1f 00 80 3d e8 85 16 00 00 74 17 b8 01 00 00 00 0f 05 <48> 3d 00 f0 ff ff 77 58 c3 0f 1f 80 00 00 00 00 48 83 ec 28 48 89\n\
[    2.985207] RSP: 002b:00007ffe10f72218 EFLAGS: 00000202 ORIG_RAX: 0000000000000001\n\
[    2.985757] RAX: ffffffffffffffda RBX: 0000000000000001 RCX: 000000000047b7a0\n\
[    2.986216] RDX: 000000000000000a RSI: 0000000008e61590 RDI: 0000000000000001\n\
[    2.986634] RBP: 0000000008e61590 R08: fefefefefefefeff R09: fefefefefefeff4d\n\
[    2.987102] R10: 00000000000001b6 R11: 0000000000000202 R12: 000000000000000a\n\
[    2.987604] R13: 0000000008e5d3a0 R14: 0000000000000001 R15: 00007ffe10f72280\n\
[    2.988007]  </TASK>\n\
[    2.988282] Modules linked in: lkdtm ramoops reed_solomon\n\
[    2.988847] CR2: 0000000000000000\n\
[    2.989466] ---[ end trace 0000000000000000 ]---\n\
[    3.014227] RIP: 0010:lkdtm_EXCEPTION+0x8/0x14 [lkdtm]\n\
[    3.014785] Code: e1 31 f6 48 89 df 48 89 45 d0 e8 8c 34 11 e1 48 8b 45 d0 48 83 c4 18 5b 41 5c 41 5d 41 5e 41 5f 5d c3 0f 1f 44 00 00 55 31 c0 <89> 04 25 00 00 00 00 48 89 e5 5d c3 0f 1f 44 00 00 55 48 89 e5 eb\n\
[    3.015668] RSP: 0018:ffffc900000cfdb8 EFLAGS: 00000246\n\
[    3.016025] RAX: 0000000000000000 RBX: ffff888000b72000 RCX: 0000000000000003\n\
[    3.016689] RDX: 00000000000000e1 RSI: ffffc900000cfcb0 RDI: ffffffffa001b2c0\n\
[    3.017042] RBP: ffffc900000cfdc8 R08: 0000000000000000 R09: 0000000000000000\n\
[    3.017557] R10: 003d0082002e0000 R11: 0003004a002000fd R12: 000000000000000a\n\
[    3.018039] R13: ffffffffa001b2c0 R14: ffffc900000cfee8 R15: ffff888000614780\n\
[    3.018430] FS:  0000000008e5d3c0(0000) GS:ffff88800f800000(0000) knlGS:0000000000000000\n\
[    3.018915] CS:  0010 DS: 0000 ES: 0000 CR0: 0000000080050033\n\
[    3.019374] CR2: 0000000000000000 CR3: 0000000000a58000 CR4: 00000000000006b0\n\
[    3.026170] peer line 1\n\
[    3.027837] peer line 2\n\
[    3.029594] peer line 3\n\
[    3.030620] peer line 4\n\
[    3.031520] peer line 5\n\
[    3.034160] sysrq: Trigger a crash\n\
[    3.034971] Kernel panic - not syncing: sysrq triggered crash\n\
[    3.036072] Kernel Offset: disabled\n\
\n\
ECC: No errors detected\n\
";

pub const STOCK: &[u8] = b"\
Panic#1 Part1\n\
<6>[    2.124932] pci_bus 0000:00: resource 7 [mem 0x10000000-0xfebfffff window]\n\
<6>[    2.125129] pci_bus 0000:00: resource 8 [mem 0x100000000-0x17fffffff window]\n\
<6>[    2.126651] pci 0000:00:01.0: PIIX3: Enabling Passive Release\n\
<6>[    2.127074] pci 0000:00:00.0: Limiting direct PCI/PCI transfers\n\
<6>[    2.127465] PCI: CLS 0 bytes, default 64\n\
<6>[    2.150503] Trying to unpack rootfs image as initramfs...\n\
<5>[    2.159686] Initialise system trusted keyrings\n\
<5>[    2.165417] Key type blacklist registered\n\
<6>[    2.175683] workingset: timestamp_bits=36 max_order=16 bucket_order=0\n\
<5>[    2.273715] integrity: Platform Keyring initialized\n\
<5>[    2.273715] integrity: Machine keyring initialized\n\
<5>[    2.273715] Key type asymmetric registered\n\
<5>[    2.283216] Asymmetric key parser 'x509' registered\n\
<6>[    2.360435] Freeing initrd memory: 1096K\n\
<6>[    2.419764] alg: self-tests for CTR-KDF (hmac(sha256)) passed\n\
<6>[    2.420975] Block layer SCSI generic (bsg) driver version 0.4 loaded (major 249)\n\
<6>[    2.423282] io scheduler mq-deadline registered\n\
<6>[    2.463721] Serial: 8250/16550 driver, 4 ports, IRQ sharing enabled\n\
<6>[    2.468395] 00:04: ttyS1 at I/O 0x2f8 (irq = 3, base_baud = 115200) is a 16550A\n\
<6>[    2.476618] 00:05: ttyS0 at I/O 0x3f8 (irq = 4, base_baud = 115200) is a 16550A\n\
<6>[    2.502407] i8042: PNP: PS/2 Controller [PNP0303:KBD,PNP0f13:MOU] at 0x60,0x64 irq 1,12\n\
<6>[    2.509372] serio: i8042 KBD port at 0x60,0x64 irq 1\n\
<6>[    2.510249] serio: i8042 AUX port at 0x60,0x64 irq 12\n\
<6>[    2.518557] rtc_cmos 00:06: RTC can wake from S4\n\
<6>[    2.524379] input: AT Translated Set 2 keyboard as /devices/platform/i8042/serio0/input/input0\n\
<6>[    2.530327] rtc_cmos 00:06: registered as rtc0\n\
<6>[    2.531807] rtc_cmos 00:06: setting system clock to 2026-11-26T23:47:01 UTC (1795736821)\n\
<6>[    2.532995] rtc_cmos 00:06: alarms up to one day, y3k, 242 bytes nvram, hpet irqs\n\
<6>[    2.540732] ledtrig-cpu: registered to indicate activity on CPUs\n\
<6>[    2.671015] NET: Registered PF_INET6 protocol family\n\
<6>[    2.698777] Segment Routing with IPv6\n\
<6>[    2.699558] In-situ OAM (IOAM) with IPv6\n\
<6>[    2.700534] mip6: Mobile IPv6\n\
<6>[    2.701159] NET: Registered PF_PACKET protocol family\n\
<6>[    2.703825] IPI shorthand broadcast: enabled\n\
<6>[    2.705195] sched_clock: Marking stable (2664215663, 37546459)->(2711541621, -9779499)\n\
<6>[    2.713079] registered taskstats version 1\n\
<5>[    2.714222] Loading compiled-in X.509 certificates\n\
<5>[    2.864281] Loaded X.509 cert 'Build time autogenerated kernel key: cf735cef1ccc1ecba7c5d88fb5dbfe93524668e2'\n\
<5>[    2.867695] Key type .fscrypt registered\n\
<5>[    2.867955] Key type fscrypt-provisioning registered\n\
<5>[    2.894527] Key type encrypted registered\n\
<6>[    2.894898] AppArmor: AppArmor sha1 policy hashing enabled\n\
<6>[    2.895987] ima: No TPM chip found, activating TPM-bypass!\n\
<6>[    2.896300] ima: Allocated hash algorithm: sha256\n\
<6>[    2.900758] ima: No architecture policies found\n\
<6>[    2.902885] evm: Initialising EVM extended attributes:\n\
<6>[    2.903148] evm: security.selinux\n\
<6>[    2.903303] evm: security.SMACK64 (disabled)\n\
<6>[    2.903432] evm: security.SMACK64EXEC (disabled)\n\
<6>[    2.903552] evm: security.SMACK64TRANSMUTE (disabled)\n\
<6>[    2.903679] evm: security.SMACK64MMAP (disabled)\n\
<6>[    2.903798] evm: security.apparmor\n\
<6>[    2.903882] evm: security.ima\n\
<6>[    2.903958] evm: security.capability\n\
<6>[    2.904093] evm: HMAC attrs: 0x1\n\
<6>[    3.150229] tsc: Refined TSC clocksource calibration: 2499.984 MHz\n\
<6>[    3.151237] clocksource: tsc: mask: 0xffffffffffffffff max_cycles: 0x24092ab9f7a, max_idle_ns: 440795227391 ns\n\
<6>[    3.151880] clocksource: Switched to clocksource tsc\n\
<6>[    3.585810] Freeing unused decrypted memory: 2036K\n\
<6>[    3.724328] Freeing unused kernel image (initmem) memory: 2612K\n\
<6>[    3.724860] Write protecting the kernel read-only data: 26624k\n\
<6>[    3.733994] Freeing unused kernel image (text/rodata gap) memory: 2040K\n\
<6>[    3.738793] Freeing unused kernel image (rodata/data gap) memory: 1892K\n\
<6>[    3.756761] x86/mm: Checked W+X mappings: passed, no W+X pages found.\n\
<6>[    3.757570] Run /init as init process\n\
<7>[    3.758021]   with arguments:\n\
<7>[    3.758098]     /init\n\
<7>[    3.758133]     nokaslr\n\
<7>[    3.758157]   with environment:\n\
<7>[    3.758189]     HOME=/\n\
<7>[    3.758221]     TERM=linux\n\
<6>[    4.135611] ramoops: using module parameters\n\
<6>[    4.142538] pstore: Using crash dump compression: deflate\n\
<6>[    4.143023] pstore: Registered ramoops as persistent store backend\n\
<6>[    4.143261] ramoops: using 0x8000@0x8000000, ecc: 16\n\
<12>[    4.151935] peer line 1\n\
<12>[    4.152956] peer line 2\n\
<12>[    4.153426] peer line 3\n\
<12>[    4.155105] peer line 4\n\
<12>[    4.155638] peer line 5\n\
<6>[    4.158137] sysrq: Trigger a crash\n\
<0>[    4.158601] Kernel panic - not syncing: sysrq triggered crash\n\
<4>[    4.159030] CPU: 0 PID: 1 Comm: init Not tainted 6.1.0-56-cloud-amd64 #1  Debian 6.1.192-2\n\
<4>[    4.159431] Hardware name: QEMU Standard PC (i440FX + PIIX, 1996), BIOS 1.16.2-debian-1.16.2-1 04/01/2014\n\
<4>[    4.159907] Call Trace:\n\
<4>[    4.161172]  <TASK>\n\
<4>[    4.161566]  dump_stack_lvl+0x44/0x5c\n\
<4>[    4.162302]  panic+0x118/0x2f4\n\
<4>[    4.162464]  ? _printk+0x68/0x83\n\
<4>[    4.162594]  sysrq_handle_crash+0x16/0x20\n\
<4>[    4.162753]  __handle_sysrq.cold+0x44/0x11c\n\
<4>[    4.162890]  write_sysrq_trigger+0x24/0x40\n\
<4>[    4.163007]  proc_reg_write+0x56/0xa0\n\
<4>[    4.163128]  vfs_write+0xc7/0x3f0\n\
<4>[    4.163238]  ? syscall_exit_to_user_mode+0x1e/0x40\n\
<4>[    4.163369]  ? do_syscall_64+0x69/0x90\n\
<4>[    4.163507]  ksys_write+0x6b/0xf0\n\
<4>[    4.163613]  do_syscall_64+0x5d/0x90\n\
<4>[    4.163714]  ? syscall_exit_to_user_mode+0x1e/0x40\n\
<4>[    4.163841]  ? do_syscall_64+0x69/0x90\n\
<4>[    4.163946]  ? syscall_exit_to_user_mode+0x1e/0x40\n\
<4>[    4.164073]  ? do_syscall_64+0x69/0x90\n\
<4>[    4.164177]  ? do_syscall_64+0x69/0x90\n\
<4>[    4.164279]  ? exit_to_user_mode_prepare+0x172/0x240\n\
<4>[    4.164452]  entry_SYSCALL_64_after_hwframe+0x6e/0xd8\n\
<4>[    4.164899] RIP: 0033:0x47b7a0\n\
<4>[    4.165559] Code: 40 00 48 c7 c2 e0 ff ff ff f7 d8 64 89 02 48 c7 c0 ff ff ff ff eb b7 0f 1f 00 80 3d e8 85 16 00 00 74 17 b8 01 00 00 00 0f 05 <48> 3d 00 f0 ff ff 77 58 c3 0f 1f 80 00 00 00 00 48 83 ec 28 48 89\n\
<4>[    4.166122] RSP: 002b:00007ffe163d5ec8 EFLAGS: 00000202 ORIG_RAX: 0000000000000001\n\
<4>[    4.166370] RAX: ffffffffffffffda RBX: 0000000000000001 RCX: 000000000047b7a0\n\
<4>[    4.166561] RDX: 0000000000000002 RSI: 000000001d41a5e0 RDI: 0000000000000001\n\
<4>[    4.166734] RBP: 000000001d41a5e0 R08: fefefefefefefeff R09: fefefefefefeff62\n\
<4>[    4.166908] R10: 00000000000001b6 R11: 0000000000000202 R12: 0000000000000002\n\
<4>[    4.167081] R13: 000000001d4163a0 R14: 0000000000000001 R15: 00007ffe163d5f30\n\
<4>[    4.167361]  </TASK>\n\
<0>[    4.168438] Kernel Offset: disabled\n\
\n\
ECC: No errors detected\n\
";
