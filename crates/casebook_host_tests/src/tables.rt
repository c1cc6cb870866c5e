//! Tables of mounts and of logins.

/// Folders of a machine that has several mounts. Of these, reading is seen in `/srv`, `/home/alice`
/// and `/mnt/my disk`.
pub const MACHINE: &str = r#"
given: sysfs /sys sysfs rw,nosuid,nodev,noexec,relatime 0 0%(NL)\
  /dev/sda1 / ext4 rw,relatime,errors=remount-ro 0 0%(NL)\
  /dev/sda2 /srv ext4 rw,nosuid,errors=remount-ro 0 0%(NL)\
  /dev/sda3 /home xfs rw,noatime,attr2 0 0%(NL)\
  /dev/sda4 /home/alice xfs rw 0 0%(NL)\
  /dev/sdb1 /var ext4 rw,nodiratime 0 0%(NL)\
  /dev/sdc1 /usr squashfs ro 0 0%(NL)\
  /dev/sdd1 /mnt/my\040disk ext4 rw 0 0%(NL)
- unseen: /srv :: /srv/data :: /srv/data/a => %(EMPTY)
- unseen: /srv2 :: /sr => /srv2, /sr
- unseen: / :: /etc :: /sys/kernel => /, /etc, /sys/kernel
- unseen: /home :: /home/bob :: /home/alice :: /home/alice/notes :: /home/alice2
  => /home, /home/bob, /home/alice2
- unseen: /var :: /var/log :: /usr/share => /var, /var/log, /usr/share
- unseen: /mnt/my disk :: /mnt/my disk/a :: /mnt/my => /mnt/my
- unseen: /etc :: /srv :: /etc :: /usr => /etc, /etc, /usr
"#;

/// Single tables of mounts.
pub const MOUNTS: &str = r#"
unseen: %(EMPTY) :: / :: /srv => /, /srv
unseen: a / b rw 0 0%(NL) :: / :: /srv => %(EMPTY)
unseen: a / b rw 0 0 :: /srv => %(EMPTY)
unseen: a / b rw :: /srv => %(EMPTY)
unseen: a / b :: /srv => /srv
unseen: a /srv b rw 0 0%(NL) :: / :: /srv => /
unseen: a%(TAB)/srv%(TAB)b%(TAB)rw%(TAB)0%(TAB)0%(NL) :: /srv => %(EMPTY)
unseen:   a   /srv %(TAB) b  rw  0 0  %(NL) :: /srv => %(EMPTY)
unseen: %(NL)%(NL)a /srv b rw 0 0%(NL)%(NL) :: /srv => %(EMPTY)

unseen: a /srv b relatime 0 0%(NL) :: /srv => /srv
unseen: a /srv b rw,ro 0 0%(NL) :: /srv => /srv
unseen: a /srv b rw,noatime,nodiratime 0 0%(NL) :: /srv => /srv
unseen: a /srv b rw,norelatime,roo,atime,RO,ro=1,,strictatime 0 0%(NL) :: /srv => %(EMPTY)
unseen: ro ro ro rw 0 0%(NL)ro /srv ro rw ro ro%(NL) :: /srv => %(EMPTY)

unseen: a /srv b ro 0 0%(NL)a /srv b rw 0 0%(NL) :: /srv => %(EMPTY)
unseen: a /srv b rw 0 0%(NL)a /srv b ro 0 0%(NL) :: /srv => /srv
unseen: a /srv/x b rw 0 0%(NL)a /srv b ro 0 0%(NL) :: /srv/x => /srv/x
unseen: a /srv b rw 0 0%(NL)a /srv b ro%(NL)a /srv b%(NL) :: /srv => /srv
unseen: a /srv b rw 0 0%(NL)a /srv/x b ro 0 0%(NL) :: /srv :: /srv/x/y => /srv/x/y

unseen: a /a\040b\011c\012d\134e b rw 0 0%(NL) :: /a b%(TAB)c%(NL)d\e => %(EMPTY)
unseen: a /\303\244\043 b rw 0 0%(NL) :: /ä# => %(EMPTY)
unseen: a /a\04 b rw 0 0%(NL)a /b\0408 b rw 0 0%(NL) :: /a\04 :: /b 8 => %(EMPTY)
unseen: a /a\400\080\x20\ b rw 0 0%(NL) :: /a\400\080\x20\ => %(EMPTY)
unseen: a /a\\040b b rw 0 0%(NL) :: /a\ b :: /a\040b => /a\040b
unseen: a /a\134040b b rw 0 0%(NL) :: /a\040b :: /a b => /a b
unseen: a none b rw 0 0%(NL)a srv b rw 0 0%(NL) :: /srv :: / => /srv, /
"#;

/// What `who` printed.
pub const LOGINS: &str = r#"
logins: %(EMPTY) => %(EMPTY)
logins: alice    pts/0        2026-05-01 10:00 (192.0.2.1)%(NL)\
  bob      tty1         2026-05-01 09:12%(NL)\
  carol    :0           2026-05-01 08:00 (:0)%(NL)\
  alice    pts/1        2026-05-01 10:30 (192.0.2.1)%(NL)
  => alice at pts/0, bob at tty1, carol at :0, alice at pts/1
logins: alice pts/0 => alice at pts/0
logins: alice%(TAB)tty1%(TAB)now%(NL) => alice at tty1
logins: alice%(NL)%(NL)bob tty2%(NL) => bob at tty2
logins:   alice  %(NL) => %(EMPTY)
logins:   alice  pts/3  %(NL) => alice at pts/3
"#;
